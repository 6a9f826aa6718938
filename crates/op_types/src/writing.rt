ghost use Rattle.std.specs.Prelude.{◌≡◌, ◌<◌, ◌^◌, ◌++◌, length, IfOk, OnOk};
ghost use Rattle.op_types.specs.Spelling.{IsKind, IsView, IsOp, IsLeaf, AreWraps, wrap_text, wraps_text, kind_text, view_text, unsigned_text, op_text, leaf_text};

use crate::kind::{Kind, Wrap, Wraps};
use crate::op::{Leaf, Op};
use crate::tags::{ADMIT_TAG, POST_TAG, REMOVE_TAG};
use crate::view::View;
use fr_bytes::{Bytes, NoMemory, put_bytes, put_counted, put_u8, put_u32, put_u64};
use std::alloc::Global;

fn put_wrap(out: &mut Vec<u8>, wrap: &Wrap) -> Result<(), NoMemory>
    ensures { OnOk result (out.new.items ≡ out.old.items ++ wrap_text wrap.now) }
{
    put_u32(out, wrap.child)?;
    put_u32(out, wrap.child_gen)?;
    put_bytes(out, &wrap.body)
}

fn put_wraps(out: &mut Vec<u8>, wraps: &Wraps) -> Result<(), NoMemory>
    requires { length wraps.now < 256 }
    ensures { OnOk result (out.new.items ≡ out.old.items ++ wraps_text wraps.now) }
{
    put_u8(out, wraps.len() as u8)?;
    for wrap in wraps.as_slice() {
        put_wrap(out, wrap)?;
    }
    Ok(())
}

fn put_kind(out: &mut Vec<u8>, kind: &Kind) -> Result<(), NoMemory>
    requires { IsKind kind.now }
    ensures { OnOk result (out.new.items ≡ out.old.items ++ kind_text kind.now) }
{
    match kind {
        Kind::Post { body } => {
            put_u8(out, POST_TAG)?;
            put_counted(out, body.as_slice())
        }
        Kind::Admit {
            user,
            role,
            slot,
            wraps,
        } => {
            put_u8(out, ADMIT_TAG)?;
            put_u32(out, *user)?;
            put_u8(out, *role)?;
            put_u8(out, *slot)?;
            put_wraps(out, wraps)
        }
        Kind::Remove { user, slot, wraps } => {
            put_u8(out, REMOVE_TAG)?;
            put_u32(out, *user)?;
            put_u8(out, *slot)?;
            put_wraps(out, wraps)
        }
    }
}

/// Adds a view's spelling, without the number of its wall.
///
/// # Errors
/// `NoMemory`; then a part of it may have been added.
pub fn put_view(out: &mut Vec<u8>, view: &View) -> Result<(), NoMemory>
    requires { IsView view.now.wall view.now }
    ensures added { OnOk result (out.new.items ≡ out.old.items ++ view_text view.now) }
{
    put_u64(out, view.size)?;
    if view.size == 0 {
        return Ok(());
    }
    put_bytes(out, &view.root)?;
    put_counted(out, view.sig.as_slice())
}

/// An operation up to its signature.
#[tactic(auto, unfolding(crate::specs::Spelling::unsigned_text))]
pub(crate) fn put_unsigned(out: &mut Vec<u8>, op: &Op) -> Result<(), NoMemory>
    requires { IsOp op.now }
    ensures { OnOk result (out.new.items ≡ out.old.items ++ unsigned_text op.now) }
{
    put_u32(out, op.wall)?;
    put_u32(out, op.author)?;
    put_u32(out, op.seq)?;
    put_u64(out, op.epoch)?;
    put_view(out, &op.view)?;
    put_kind(out, &op.kind)?;
    Ok(())
}

#[tactic(auto, unfolding(crate::specs::Spelling::op_text))]
fn put_op(out: &mut Vec<u8>, op: &Op) -> Result<(), NoMemory>
    requires { IsOp op.now }
    ensures { OnOk result (out.new.items ≡ out.old.items ++ op_text op.now) }
{
    put_unsigned(out, op)?;
    put_counted(out, op.sig.as_slice())
}

/// The bytes that spell the operation.
pub fn write_op(alloc: Global, op: &Op) -> Result<Bytes, NoMemory>
    requires { IsOp op.now }
    ensures { IfOk result (λ bytes. bytes ≡ op_text op.now) }
{
    let mut out = Vec::new(alloc);
    put_op(&mut out, op)?;
    Ok(Bytes::of(out))
}

/// The bytes that spell the leaf: its text.
#[tactic(auto, unfolding(crate::specs::Spelling::leaf_text))]
pub fn write_leaf(alloc: Global, leaf: &Leaf) -> Result<Bytes, NoMemory>
    requires { IsLeaf leaf.now }
    ensures { IfOk result (λ bytes. bytes ≡ leaf_text leaf.now) }
{
    let mut out = Vec::new(alloc);
    put_bytes(&mut out, &leaf.after)?;
    put_u64(&mut out, leaf.epoch)?;
    put_op(&mut out, &leaf.op)?;
    Ok(Bytes::of(out))
}
