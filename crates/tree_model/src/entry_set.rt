ghost use Rattle.std.specs.Prelude.{◌≡◌, ◌<◌, ◌++◌, ◌∷◌, [], ℕ, Some, length, slice_get};
ghost use Rattle.std.specs.Int.{w32, to_be_bytes};
ghost use Rattle.tree_model.specs.AccessList.{IsRising, top_of, node_text, set_digest, dict};

use crate::entry::Entry;
use crate::priority::{is_above, priority_hash};
use fr_digest::{Dig, Digester};

/// The tag of a node's string.
const NODE_TAG: u8 = 2;

/// The place of the entry of greatest priority, and the entry. Takes no memory.
pub fn top_in(entries: &[Entry]) -> (usize, Entry)
    requires { 0 < length entries.now }
    ensures within { result.0 < length entries.now }
    ensures place { slice_get entries.now result.0 ≡ Some result.1 }
    ensures top { top_of entries.now ≡ Some result.1 }
{
    let mut place = 0;
    let mut top = entries[0];
    let mut top_hash = priority_hash(top.user);
    for i in 1..entries.len() {
        let entry = entries[i];
        let hash = priority_hash(entry.user);
        if is_above(entry.user, &hash, top.user, &top_hash) {
            place = i;
            top = entry;
            top_hash = hash;
        }
    }
    (place, top)
}

/// The first bytes of a node's string, behind the tag: the entry and which children there are.
fn head(entry: &Entry, flags: u8) -> [u8; 10]
    ensures { result ≡ to_be_bytes w32 entry.now.user
        ++ (entry.now.role ∷ (to_be_bytes w32 entry.now.next ++ (flags ∷ []))) }
{
    let user = entry.user.to_be_bytes();
    let next = entry.next.to_be_bytes();
    [
        user[0], user[1], user[2], user[3], entry.role, next[0], next[1], next[2], next[3], flags,
    ]
}

/// Two digests, one after the other.
fn joined(left: &Dig, right: &Dig) -> [u8; 64]
    ensures { result ≡ left.now ++ right.now }
{
    let mut both = [0; 64];
    let (first, second) = both.split_at_mut(32);
    first.copy_from_slice(left);
    second.copy_from_slice(right);
    both
}

/// The digest of the node of an entry over its children's digests.
fn node_digest<D: Digester>(entry: &Entry, left: Option<Dig>, right: Option<Dig>) -> Dig
    ensures { result ≡ D.digest_of (node_text entry.now left right) }
{
    match (left, right) {
        (None, None) => D::tagged(NODE_TAG, &head(entry, 0), &[]),
        (Some(left), None) => D::tagged(NODE_TAG, &head(entry, 1), &left),
        (None, Some(right)) => D::tagged(NODE_TAG, &head(entry, 2), &right),
        (Some(left), Some(right)) => {
            D::tagged(NODE_TAG, &head(entry, 3), &joined(&left, &right))
        }
    }
}

/// The digest of a set, where it isn't empty.
fn set_digest<D: Digester>(entries: &[Entry]) -> Option<Dig>
    requires { IsRising entries.now }
    ensures { result ≡ set_digest D.digest_of entries.now }
{
    if entries.is_empty() {
        return None;
    }
    let (place, top) = top_in(entries);
    let (left, rest) = entries.split_at(place);
    let (_, right) = rest.split_at(1);
    let left = set_digest::<D>(left);
    let right = set_digest::<D>(right);
    Some(node_digest::<D>(&top, left, right))
}

/// The digest of an access list, whose users rise: that of the treap of its entries, in which the
/// entry of greatest priority is on top and smaller users are left of greater ones (Aragon and Seidel,
/// "Randomized Search Trees"). Takes no memory.
#[tactic(auto, unfolding(crate::specs::AccessList::dict))]
pub fn dict_digest<D: Digester>(entries: &[Entry]) -> Dig
    requires some { 0 < length entries.now }
    requires rising { IsRising entries.now }
    ensures { result ≡ dict D.digest_of entries.now }
{
    match set_digest::<D>(entries) {
        Some(digest) => digest,
        None => unreachable!(),
    }
}
