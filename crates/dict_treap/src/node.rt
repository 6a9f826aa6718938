ghost use Rattle.dict_treap.specs.Treap.{left_of, owned, part, right_of};
ghost use Rattle.pruned_list.specs.PrunedList.{levels, node, part_digest};
ghost use Rattle.std.specs.Prelude.{◌≡◌, ◌<◌, IfOk, Some};

use fr_bytes::NoMemory;
use fr_digest::{Dig, Digester};
use pruned_list::node_digest;
use std::alloc::Global;
use std::marker::{Model, PhantomData};
use tree_model::Entry;

/// A part of a treap that the program owns: a node, or nothing.
pub(crate) type Part<D> = Option<Box<Node<D>>>;

/// A node of the treap of an access list, with its digest and its parts. Contracts see it as the pruned list from
/// this node on.
#[derive(Drop)]
pub struct Node<D: Digester> {
    entry: Entry,
    digest: Dig,
    left: Option<Box<Node<D>>>,
    right: Option<Box<Node<D>>>,
    digester: PhantomData<D>,
}

impl<D: Digester> Model for Node<D> {
    ghost use Rattle.std.proofs.Common.{arith};
    ghost use Rattle.dict_treap.specs.Treap.{levels-node, owned};
    ghost use Rattle.pruned_list.specs.Code.{list_code};
    ghost use Rattle.pruned_list.specs.PrunedList.{PrunedList, levels, node, part_digest};
    ghost use Rattle.std.specs.Prelude.{◌≡◌, Some};

    ghost Value = { PrunedList };

    ghost coded = { list_code };

    ghost view = { λ n. node n.entry (owned n.left) (owned n.right) };

    ghost invariant = { λ n. part_digest D.digest_of (node n.entry (owned n.left) (owned n.right)) ≡ Some n.digest };

    ghost size = { levels };

    ghost size_decreases = { λ n h. Prim.grind (arith, levels-node) };
}

impl<D: Digester> Node<D> {
    /// The entry of the node.
    pub fn entry(&self) -> Entry
        ensures { self.now ≡ node result (left_of self.now) (right_of self.now) }
    {
        self.entry
    }

    /// The digest of the node. Nothing is hashed.
    pub fn digest(&self) -> Dig
        ensures { part_digest D.digest_of self.now ≡ Some result }
    {
        self.digest
    }

    /// The node over the smaller users, where there are some.
    #[tactic(auto, unfolding(pruned_list::specs::PrunedList::levels))]
    pub fn left(&self) -> Option<&Node<D>>
        ensures value { part result ≡ left_of self.now }
        ensures fewer { levels (part result) < levels self.now }
    {
        match &self.left {
            None => None,
            Some(left) => Some(left),
        }
    }

    /// The node over the greater users, where there are some.
    #[tactic(auto, unfolding(pruned_list::specs::PrunedList::levels))]
    pub fn right(&self) -> Option<&Node<D>>
        ensures value { part result ≡ right_of self.now }
        ensures fewer { levels (part result) < levels self.now }
    {
        match &self.right {
            None => None,
            Some(right) => Some(right),
        }
    }
}

/// The digest of a part, where there is one.
#[tactic(auto, unfolding(pruned_list::specs::PrunedList::part_digest))]
fn digest_of<D: Digester>(owned_part: &Part<D>) -> Option<Dig>
    ensures { result ≡ part_digest D.digest_of (owned owned_part.now) }
{
    match owned_part {
        None => None,
        Some(node) => Some(node.digest()),
    }
}

/// The node of an entry over two parts. It is hashed.
#[tactic(auto, unfolding(pruned_list::specs::PrunedList::part_digest))]
pub(crate) fn over<D: Digester>(
    alloc: Global,
    entry: Entry,
    left: Part<D>,
    right: Part<D>,
) -> Result<Part<D>, NoMemory>
    ensures { IfOk result (λ p. owned p ≡ node entry (owned left) (owned right)) }
{
    let digest = node_digest::<D>(&entry, digest_of(&left), digest_of(&right));
    Ok(Some(Box::new(
        alloc,
        Node {
            entry,
            digest,
            left,
            right,
            digester: PhantomData,
        },
    )?))
}

/// The same treap, of which nothing is hashed.
pub(crate) fn copy<D: Digester>(alloc: Global, at: Option<&Node<D>>) -> Result<Part<D>, NoMemory>
    ensures { IfOk result (λ p. owned p ≡ part at.entry) }
{
    let Some(node) = at else {
        return Ok(None);
    };
    let left = copy(alloc, node.left())?;
    let right = copy(alloc, node.right())?;
    Ok(Some(Box::new(
        alloc,
        Node {
            entry: node.entry,
            digest: node.digest,
            left,
            right,
            digester: PhantomData,
        },
    )?))
}
