ghost use Rattle.fr_digest.specs.Digest.{tagged_string};
ghost use Rattle.std.specs.Prelude.{◌≡◌, ◌++◌, ◌↔◌, IfOk, IsTrue, OnOk, Some};
ghost use Rattle.tree_model.specs.AccessList.{child_text, flags, node_text};
ghost use Rattle.std.specs.Str.{bytes_eq};
ghost use Rattle.tree_extract.specs.NodeString.{IsShaped, head_text, spelled};

use fr_bytes::{NoMemory, put_bytes, put_u8, put_u32};
use fr_digest::{Dig, Digester};
use pruned_list::node_digest;
use std::alloc::Global;
use tree_model::Entry;

/// The string that is digested at a node of a history tree or of an access list, held by its parts: no memory is taken
/// until the string is handed out.
#[derive(Clone, Copy)]
pub enum NodeString<'a> {
    /// A leaf and its text.
    Leaf(&'a [u8]),
    /// A node without a right half, and its left digest.
    Single(Dig),
    /// A node with both digests.
    Pair(Dig, Dig),
    /// A node of an access list.
    Entry(EntryNode),
}

/// The node of an entry of an access list, with the digests of its parts.
#[derive(Clone, Copy)]
pub struct EntryNode {
    pub entry: Entry,
    pub left: Option<Dig>,
    pub right: Option<Dig>,
}

/// A string of a tag and two pieces.
fn string_of(alloc: Global, tag: u8, first: &[u8], second: &[u8]) -> Result<Vec<u8>, NoMemory>
    ensures { IfOk result (λ v. v.items ≡ tagged_string tag first.now second.now) }
{
    let mut string = Vec::new(alloc);
    put_u8(&mut string, tag)?;
    put_bytes(&mut string, first)?;
    put_bytes(&mut string, second)?;
    Ok(string)
}

impl NodeString<'_> {
    /// The digest of the string.
    pub fn digest<D: Digester>(&self) -> Dig
        ensures { result ≡ D.digest_of (spelled self.now) }
    {
        match self {
            NodeString::Leaf(text) => D::tagged(0, &[], text),
            NodeString::Single(left) => D::tagged(1, &[], left),
            NodeString::Pair(left, right) => D::tagged(1, left, right),
            NodeString::Entry(node) => node_digest::<D>(&node.entry, node.left, node.right),
        }
    }

    /// The string itself.
    pub fn to_vec(&self, alloc: Global) -> Result<Vec<u8>, NoMemory>
        ensures { IfOk result (λ v. v.items ≡ spelled self.now) }
    {
        match self {
            NodeString::Leaf(text) => string_of(alloc, 0, &[], text),
            NodeString::Single(left) => string_of(alloc, 1, &[], left),
            NodeString::Pair(left, right) => string_of(alloc, 1, left, right),
            NodeString::Entry(node) => node.to_vec(alloc),
        }
    }

    /// Whether both are one string.
    pub fn is_same(&self, other: &NodeString<'_>) -> bool
        requires shaped { IsShaped self.now }
        requires other_shaped { IsShaped other.now }
        ensures { result ≡ bytes_eq (spelled self.now) (spelled other.now) }
    {
        match (self, other) {
            (NodeString::Leaf(text), NodeString::Leaf(other_text)) => text == other_text,
            (NodeString::Single(left), NodeString::Single(other_left)) => left == other_left,
            (NodeString::Pair(left, right), NodeString::Pair(other_left, other_right)) => {
                left == other_left && right == other_right
            }
            (NodeString::Entry(node), NodeString::Entry(other_node)) => node.is_same(other_node),
            _ => false,
        }
    }
}

fn is_same_entry(a: &Entry, b: &Entry) -> bool
    ensures { IsTrue result ↔ (a.now ≡ b.now) }
{
    a.user == b.user && a.role == b.role && a.next == b.next
}

fn is_same_part(a: &Option<Dig>, b: &Option<Dig>) -> bool
    ensures { IsTrue result ↔ (a.now ≡ b.now) }
{
    match (a, b) {
        (None, None) => true,
        (Some(x), Some(y)) => x == y,
        _ => false,
    }
}

impl EntryNode {
    /// Appends the digest of a part, where there is one.
    fn put_part(out: &mut Vec<u8>, part: &Option<Dig>) -> Result<(), NoMemory>
        ensures { OnOk result (out.new.items ≡ out.old.items ++ child_text part.now) }
    {
        match part {
            None => Ok(()),
            Some(digest) => put_bytes(out, digest),
        }
    }

    /// Which parts there are: 1 for a left one and 2 for a right one.
    fn flags(&self) -> u8
        ensures { result ≡ flags self.now.left self.now.right }
    {
        match (&self.left, &self.right) {
            (None, None) => 0,
            (Some(_), None) => 1,
            (None, Some(_)) => 2,
            (Some(_), Some(_)) => 3,
        }
    }

    /// Appends the tag and the entry, and which parts there are.
    fn put_head(&self, out: &mut Vec<u8>) -> Result<(), NoMemory>
        ensures { OnOk result (out.new.items ≡ out.old.items ++ head_text self.now.entry self.now.left self.now.right) }
    {
        put_u8(out, 2)?;
        put_u32(out, self.entry.user)?;
        put_u8(out, self.entry.role)?;
        put_u32(out, self.entry.next)?;
        put_u8(out, self.flags())
    }

    /// Whether both are one node.
    fn is_same(&self, other: &EntryNode) -> bool
        ensures { IsTrue result ↔ (self.now ≡ other.now) }
    {
        is_same_entry(&self.entry, &other.entry)
            && is_same_part(&self.left, &other.left)
            && is_same_part(&self.right, &other.right)
    }

    /// The string of the node.
    fn to_vec(&self, alloc: Global) -> Result<Vec<u8>, NoMemory>
        ensures { IfOk result (λ v. v.items ≡ node_text self.now.entry self.now.left self.now.right) }
    {
        let mut string = Vec::new(alloc);
        self.put_head(&mut string)?;
        EntryNode::put_part(&mut string, &self.left)?;
        EntryNode::put_part(&mut string, &self.right)?;
        Ok(string)
    }
}

/// The strings of two nodes that stand in the same place.
#[derive(Clone, Copy)]
pub struct Found<'a> {
    pub a: NodeString<'a>,
    pub b: NodeString<'a>,
}
