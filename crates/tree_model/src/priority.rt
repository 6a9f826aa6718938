ghost use Rattle.std.specs.Prelude.{◌≡◌};
ghost use Rattle.tree_model.specs.AccessList.{priority_hash, is_above};

use fr_digest::{Dig, Digester, Sha};

/// The tag of the string whose hash is a user's priority.
const PRIORITY_TAG: u8 = 3;

/// The hash of a user's priority: SHA-256 of a tag and the user's number.
#[tactic(auto, unfolding(crate::specs::AccessList::priority_hash))]
pub(crate) fn priority_hash(user: u32) -> Dig
    ensures { result ≡ priority_hash user }
{
    Sha::tagged(PRIORITY_TAG, &user.to_be_bytes(), &[])
}

/// Whether the priority of user `a`, with this hash, is greater than that of `b` with its hash.
#[tactic(auto, unfolding(crate::specs::AccessList::is_above))]
pub(crate) fn is_above(a: u32, a_hash: &Dig, b: u32, b_hash: &Dig) -> bool
    requires left { a_hash.now ≡ priority_hash a }
    requires right { b_hash.now ≡ priority_hash b }
    ensures { result ≡ is_above a b }
{
    a_hash
        .as_slice()
        .cmp(b_hash.as_slice())
        .then(a.cmp(&b))
        .is_gt()
}

/// Whether the priority of user `a` is greater than that of user `b`. The priority of a user is the
/// pair of the SHA-256 of the byte 3 and the user's number, and the number. Takes no memory.
pub fn above(a: u32, b: u32) -> bool
    ensures { result ≡ is_above a b }
{
    is_above(a, &priority_hash(a), b, &priority_hash(b))
}
