ghost use Rattle.std.specs.Int.{w32, to_be_bytes};
ghost use Rattle.std.specs.Prelude.{◌≡◌, ◌++◌, ◌∷◌, []};
ghost use Rattle.tree_model.specs.AccessList.{node_text};

use fr_digest::{Dig, Digester};
use tree_model::Entry;

/// The tag of a node's string.
const NODE_TAG: u8 = 2;

/// The first bytes of a node's string, behind the tag: the entry and which parts there are.
fn head(entry: &Entry, flags: u8) -> [u8; 10]
    ensures { result ≡ to_be_bytes w32 entry.now.user
        ++ (entry.now.role ∷ (to_be_bytes w32 entry.now.next ++ (flags ∷ []))) }
{
    let user = entry.user.to_be_bytes();
    let next = entry.next.to_be_bytes();
    [
        user[0], user[1], user[2], user[3], entry.role, next[0], next[1], next[2], next[3], flags,
    ]
}

/// Two digests, one after the other.
fn joined(left: &Dig, right: &Dig) -> [u8; 64]
    ensures { result ≡ left.now ++ right.now }
{
    let mut both = [0; 64];
    let (first, second) = both.split_at_mut(32);
    first.copy_from_slice(left);
    second.copy_from_slice(right);
    both
}

/// The digest of the node of an entry over its parts' digests: that of the string of the byte 2, the entry as 4
/// bytes, 1 and 4, a byte that is 1 for a left part and 2 for a right one, added, and the digests, left first.
/// Takes no memory.
pub fn node_digest<D: Digester>(entry: &Entry, left: Option<Dig>, right: Option<Dig>) -> Dig
    ensures { result ≡ D.digest_of (node_text entry.now left right) }
{
    match (left, right) {
        (None, None) => D::tagged(NODE_TAG, &head(entry, 0), &[]),
        (Some(left), None) => D::tagged(NODE_TAG, &head(entry, 1), &left),
        (None, Some(right)) => D::tagged(NODE_TAG, &head(entry, 2), &right),
        (Some(left), Some(right)) => {
            D::tagged(NODE_TAG, &head(entry, 3), &joined(&left, &right))
        }
    }
}
