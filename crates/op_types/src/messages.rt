ghost use Rattle.std.specs.Prelude.{◌≡◌, ◌+◌, ◌≤◌, ◌++◌, take, drop, length, IfOk};
ghost use Rattle.op_types.specs.Spelling.{IsOp, op_signed, view_signed};

use crate::op::Op;
use crate::tags::{OP_MESSAGE_TAG, VIEW_MESSAGE_TAG};
use crate::writing::put_unsigned;
use fr_bytes::{Bytes, NoMemory, put_u8};
use fr_digest::Dig;
use std::alloc::Global;

/// How many bytes a view's message has: a tag, the wall, the size and the root.
pub const VIEW_MESSAGE_BYTES: usize = 45;

/// What the author signs: the tag and the operation's bytes up to its signature.
#[tactic(auto, unfolding(crate::specs::Spelling::op_signed))]
pub fn op_message(alloc: Global, op: &Op) -> Result<Bytes, NoMemory>
    requires { IsOp op.now }
    ensures { IfOk result (λ bytes. bytes ≡ op_signed op.now) }
{
    let mut out = Vec::new(alloc);
    put_u8(&mut out, OP_MESSAGE_TAG)?;
    put_unsigned(&mut out, op)?;
    Ok(Bytes::of(out))
}

/// Puts `piece` into `out` from place `at` on.
fn place(out: &mut [u8], at: usize, piece: &[u8])
    requires { at + length piece.now ≤ length out.old }
    ensures { out.new ≡ take at out.old ++ (piece.now ++ drop (at + length piece.now) out.old) }
{
    let (_, rest) = out.split_at_mut(at);
    let (part, _) = rest.split_at_mut(piece.len());
    part.copy_from_slice(piece);
}

/// What a server signs of a wall: the tag, the wall, the size and the root. Takes no memory.
#[tactic(auto, unfolding(crate::specs::Spelling::view_signed))]
pub fn view_message(wall: u32, size: u64, root: &Dig) -> [u8; VIEW_MESSAGE_BYTES]
    ensures { result ≡ view_signed wall size root.now }
{
    let mut message = [0; VIEW_MESSAGE_BYTES];
    message[0] = VIEW_MESSAGE_TAG;
    place(&mut message, 1, &wall.to_be_bytes());
    place(&mut message, 5, &size.to_be_bytes());
    place(&mut message, 13, root);
    message
}
