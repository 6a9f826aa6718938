ghost use Rattle.dict_treap.specs.Treap.{is_greater, is_smaller, owned, part};
ghost use Rattle.pruned_list.specs.PrunedList.{found, insert, join, node, over, remove, seek, set_next, split};
ghost use Rattle.std.specs.Option.{option_map};
ghost use Rattle.std.specs.Prelude.{◌≡◌, IfOk, Some};

use crate::node::{Node, Part, copy, over};
use fr_bytes::NoMemory;
use fr_digest::Digester;
use std::alloc::Global;
use tree_model::{Entry, above};

/// The entry of a user, by the search from the top.
#[tactic(auto, unfolding(pruned_list::specs::PrunedList::seek))]
pub(crate) fn find<D: Digester>(at: Option<&Node<D>>, user: u32) -> Option<Entry>
    ensures { seek (part at.entry) user ≡ found result }
{
    let Some(node) = at else {
        return None;
    };
    let entry = node.entry();
    if user == entry.user {
        return Some(entry);
    }
    if user < entry.user {
        find(node.left(), user)
    } else {
        find(node.right(), user)
    }
}

/// The node of an entry over a part and a copy of another.
fn over_left<D: Digester>(
    alloc: Global,
    entry: Entry,
    left: Part<D>,
    right: Option<&Node<D>>,
) -> Result<Part<D>, NoMemory>
    ensures { IfOk result (λ p. owned p ≡ node entry (owned left) (part right.entry)) }
{
    let right = copy(alloc, right)?;
    over(alloc, entry, left, right)
}

/// The node of an entry over a copy of a part and another part.
fn over_right<D: Digester>(
    alloc: Global,
    entry: Entry,
    left: Option<&Node<D>>,
    right: Part<D>,
) -> Result<Part<D>, NoMemory>
    ensures { IfOk result (λ p. owned p ≡ node entry (part left.entry) (owned right)) }
{
    let left = copy(alloc, left)?;
    over(alloc, entry, left, right)
}

/// The treap in which a user's next number is `next`. The nodes above the user's and that node are hashed.
#[tactic(auto, unfolding(pruned_list::specs::PrunedList::set_next))]
pub(crate) fn set_next<D: Digester>(
    alloc: Global,
    at: Option<&Node<D>>,
    user: u32,
    next: u32,
) -> Result<Part<D>, NoMemory>
    ensures { IfOk result (λ p. set_next user next (part at.entry) ≡ Some (owned p)) }
{
    let Some(node) = at else {
        return Ok(None);
    };
    let entry = node.entry();
    if user == entry.user {
        let right = copy(alloc, node.right())?;
        return over_right(alloc, Entry { next, ..entry }, node.left(), right);
    }
    if user < entry.user {
        let left = set_next(alloc, node.left(), user, next)?;
        return over_left(alloc, entry, left, node.right());
    }
    let right = set_next(alloc, node.right(), user, next)?;
    over_right(alloc, entry, node.left(), right)
}

/// Whether each user is smaller than this one, in a part where users rise from left to right.
#[tactic(auto, unfolding(crate::specs::Treap::is_smaller))]
fn are_smaller<D: Digester>(at: Option<&Node<D>>, user: u32) -> bool
    ensures { result ≡ is_smaller user (part at.entry) }
{
    let Some(node) = at else {
        return true;
    };
    node.entry().user < user && are_smaller(node.right(), user)
}

/// Whether no user is smaller than this one, in a part where users rise from left to right.
#[tactic(auto, unfolding(crate::specs::Treap::is_greater))]
fn are_greater<D: Digester>(at: Option<&Node<D>>, user: u32) -> bool
    ensures { result ≡ is_greater user (part at.entry) }
{
    let Some(node) = at else {
        return true;
    };
    user <= node.entry().user && are_greater(node.left(), user)
}

/// The parts of the smaller and of the greater users than one who isn't in the treap. Only nodes that lose a user
/// below them are hashed.
#[tactic(auto, using(crate::proofs::Treaps::splits), unfolding(pruned_list::specs::PrunedList::split))]
fn split<D: Digester>(
    alloc: Global,
    at: Option<&Node<D>>,
    user: u32,
) -> Result<(Part<D>, Part<D>), NoMemory>
    ensures { IfOk result (λ p. split (part at.entry) user ≡ Some (owned p.0, owned p.1)) }
{
    let Some(node) = at else {
        return Ok((None, None));
    };
    if are_smaller(at, user) {
        return Ok((copy(alloc, at)?, None));
    }
    if are_greater(at, user) {
        return Ok((None, copy(alloc, at)?));
    }
    let entry = node.entry();
    if entry.user < user {
        let (smaller, greater) = split(alloc, node.right(), user)?;
        return Ok((over_right(alloc, entry, node.left(), smaller)?, greater));
    }
    let (smaller, greater) = split(alloc, node.left(), user)?;
    Ok((smaller, over_left(alloc, entry, greater, node.right())?))
}

/// The entry over the parts of smaller and of greater users.
fn on_top<D: Digester>(
    alloc: Global,
    at: Option<&Node<D>>,
    entry: Entry,
) -> Result<Part<D>, NoMemory>
    ensures { IfOk result (λ p. option_map (over entry) (split (part at.entry) entry.user)
        ≡ Some (owned p)) }
{
    let (smaller, greater) = split(alloc, at, entry.user)?;
    over(alloc, entry, smaller, greater)
}

/// The treap with the entry of a user who has none. The new node, those above it, and those that lose a user below
/// them are hashed.
#[tactic(auto, unfolding(pruned_list::specs::PrunedList::insert))]
pub(crate) fn insert<D: Digester>(
    alloc: Global,
    at: Option<&Node<D>>,
    entry: Entry,
) -> Result<Part<D>, NoMemory>
    ensures { IfOk result (λ p. insert entry (part at.entry) ≡ Some (owned p)) }
{
    let Some(node) = at else {
        return over(alloc, entry, None, None);
    };
    let top = node.entry();
    if !above(top.user, entry.user) {
        return on_top(alloc, at, entry);
    }
    if entry.user < top.user {
        let left = insert(alloc, node.left(), entry)?;
        return over_left(alloc, top, left, node.right());
    }
    let right = insert(alloc, node.right(), entry)?;
    over_right(alloc, top, node.left(), right)
}

/// A treap of smaller users and one of greater users, joined by priority. The nodes that get a user below them are
/// hashed.
#[tactic(auto, using(crate::proofs::Treaps::join_absent), unfolding(pruned_list::specs::PrunedList::join, pruned_list::specs::PrunedList::under))]
fn join<D: Digester>(
    alloc: Global,
    left: Option<&Node<D>>,
    right: Option<&Node<D>>,
) -> Result<Part<D>, NoMemory>
    ensures { IfOk result (λ p. join (part left.entry) (part right.entry) ≡ Some (owned p)) }
{
    let Some(first) = left else {
        return copy(alloc, right);
    };
    let Some(second) = right else {
        return copy(alloc, left);
    };
    if above(second.entry().user, first.entry().user) {
        let inner = join(alloc, left, second.left())?;
        return over_left(alloc, second.entry(), inner, second.right());
    }
    let inner = join(alloc, first.right(), right)?;
    over_right(alloc, first.entry(), first.left(), inner)
}

/// The treap without a user's entry. The nodes above it and those that the join of its parts hashes are hashed.
#[tactic(auto, unfolding(pruned_list::specs::PrunedList::remove))]
pub(crate) fn remove<D: Digester>(
    alloc: Global,
    at: Option<&Node<D>>,
    user: u32,
) -> Result<Part<D>, NoMemory>
    ensures { IfOk result (λ p. remove user (part at.entry) ≡ Some (owned p)) }
{
    let Some(node) = at else {
        return Ok(None);
    };
    let entry = node.entry();
    if user == entry.user {
        return join(alloc, node.left(), node.right());
    }
    if user < entry.user {
        let left = remove(alloc, node.left(), user)?;
        return over_left(alloc, entry, left, node.right());
    }
    let right = remove(alloc, node.right(), user)?;
    over_right(alloc, entry, node.left(), right)
}
