ghost use Rattle.std.specs.Prelude.{◌≡◌, ◌↔◌, IfOk, IsTrue};
ghost use Rattle.op_types.specs.Spelling.{IsOp};
ghost use Rattle.signed_ops.specs.Signed.{IsAuthorSigned, is_author_signed, is_signed_under, key_of};

use fr_bytes::NoMemory;
use lms_tree::{PublicKey, UserKeys, verify};
use op_types::{Op, op_message};
use std::alloc::Global;

/// The key that is listed for a user, and `None` exactly where none is. Takes no memory.
pub fn key_of(keys: &UserKeys, user: u32) -> Option<PublicKey>
    ensures { result ≡ key_of keys.now user }
{
    keys.as_slice()
        .iter()
        .find(|listed| listed.0 == user)
        .map(|listed| listed.1)
}

/// Whether an operation is signed by its author: a key is listed for the author, and the signature is
/// valid under it (RFC 8554, section 5.4.2).
#[tactic(auto, unfolding(crate::specs::Signed::is_author_signed))]
pub fn is_author_signed(alloc: Global, keys: &UserKeys, op: &Op) -> Result<bool, NoMemory>
    requires { IsOp op.now }
    ensures decided { IfOk result (λ b. b ≡ is_author_signed keys.now op.now) }
    ensures signed { IfOk result (λ b. IsTrue b ↔ IsAuthorSigned keys.now op.now) }
{
    match key_of(keys, op.author) {
        None => Ok(false),
        Some(key) => is_valid_under(alloc, &key, op),
    }
}

fn is_valid_under(alloc: Global, key: &PublicKey, op: &Op) -> Result<bool, NoMemory>
    requires { IsOp op.now }
    ensures { IfOk result (λ b. b ≡ is_signed_under (Some key.now) op.now) }
{
    let message = op_message(alloc, op)?;
    Ok(verify(key, message.as_slice(), op.sig.as_slice()))
}
