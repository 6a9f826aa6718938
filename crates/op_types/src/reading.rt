ghost use Rattle.std.specs.Prelude.{◌≡◌, ℕ, List, Option, Some, IfOk, IsErrOf, length};
ghost use Rattle.fr_bytes.specs.Reading.{Gives, GivesAll, piece_at, times_at, all_of};
ghost use Rattle.fr_bytes.specs.Parts.{byte_that_at, limited_at};
ghost use Rattle.op_types.specs.Roles.{may_be_given};
ghost use Rattle.op_types.specs.Spelling.{no_root, SpellsOp, SpellsLeaf};
ghost use Rattle.op_types.specs.Reading.{wrap_at, wraps_at, post_at, admit_at, remove_at, kind_behind_at, kind_at, signature_at, signed_at, view_at, op_at, leaf_at};

use crate::kind::{Kind, Wrap, Wraps};
use crate::limits::*;
use crate::op::{Leaf, Op};
use crate::roles::may_be_given;
use crate::tags::{ADMIT_TAG, POST_TAG, REMOVE_TAG};
use crate::view::View;
use fr_bytes::{Bytes, Cur, ReadRefusal, Sequence};
use fr_digest::Dig;
use std::alloc::Global;

// ---- parts

/// A copy of 32 bytes.
fn dig_of(bytes: &[u8]) -> Dig
    requires { length bytes.now ≡ 32 }
    ensures { result ≡ bytes.now }
{
    let mut dig = [0; 32];
    dig.copy_from_slice(bytes);
    dig
}

fn dig_at(cur: &mut Cur<'_>) -> Result<Dig, ReadRefusal>
    ensures { Gives (λ x. x) result cur.new (piece_at 32 cur.old) }
{
    let bytes = cur.take(32)?;
    Ok(dig_of(bytes))
}

#[tactic(auto, unfolding(fr_bytes::specs::Parts::limited_at))]
fn limited_at(alloc: Global, cur: &mut Cur<'_>, limit: u32) -> Result<Bytes, ReadRefusal>
    ensures { Gives (λ x. x) result cur.new (limited_at limit cur.old) }
{
    let bytes = cur.counted()?;
    if bytes.len() > limit as usize {
        return Err(ReadRefusal::NotForm);
    }
    Ok(Bytes::of(Vec::from_slice(alloc, bytes)?))
}

#[tactic(auto, unfolding(crate::specs::Reading::signature_at))]
fn signature_at(alloc: Global, cur: &mut Cur<'_>) -> Result<Bytes, ReadRefusal>
    ensures { Gives (λ x. x) result cur.new (signature_at cur.old) }
{
    limited_at(alloc, cur, SIGNATURE_BYTES_MAX)
}

// ---- kinds

#[tactic(auto, unfolding(crate::specs::Reading::wrap_at))]
fn wrap_at(cur: &mut Cur<'_>) -> Result<Wrap, ReadRefusal>
    ensures { Gives (λ x. x) result cur.new (wrap_at cur.old) }
{
    let child = cur.u32_within(CHILD_MIN, CHILD_MAX)?;
    let child_gen = cur.u32()?;
    let body = dig_at(cur)?;
    Ok(Wrap {
        child,
        child_gen,
        body,
    })
}

/// As many wraps as `count` says.
fn wraps_times(alloc: Global, cur: &mut Cur<'_>, count: u8) -> Result<Vec<Wrap>, ReadRefusal>
    ensures { Gives (λ x. x.items) result cur.new (times_at wrap_at count cur.old) }
{
    let mut wraps = Vec::new(alloc);
    for _ in 0..count {
        let wrap = wrap_at(cur)?;
        wraps.push(wrap)?;
    }
    Ok(wraps)
}

#[tactic(auto, unfolding(crate::specs::Reading::wraps_at))]
fn wraps_at(alloc: Global, cur: &mut Cur<'_>) -> Result<Wraps, ReadRefusal>
    ensures { Gives (λ x. x) result cur.new (wraps_at cur.old) }
{
    let count = cur.u8_within(0, WRAPS_MAX)?;
    let wraps = wraps_times(alloc, cur, count)?;
    Ok(Sequence::of(wraps))
}

/// A role that an admission may give.
#[tactic(auto, unfolding(fr_bytes::specs::Parts::byte_that_at))]
fn role_at(cur: &mut Cur<'_>) -> Result<u8, ReadRefusal>
    ensures { Gives (λ x. x) result cur.new (byte_that_at may_be_given cur.old) }
{
    let role = cur.u8()?;
    if !may_be_given(role) {
        return Err(ReadRefusal::NotForm);
    }
    Ok(role)
}

#[tactic(auto, unfolding(crate::specs::Reading::post_at))]
fn post_at(alloc: Global, cur: &mut Cur<'_>) -> Result<Kind, ReadRefusal>
    ensures { Gives (λ x. x) result cur.new (post_at cur.old) }
{
    let body = limited_at(alloc, cur, BODY_BYTES_MAX)?;
    Ok(Kind::Post { body })
}

#[tactic(auto, unfolding(crate::specs::Reading::admit_at))]
fn admit_at(alloc: Global, cur: &mut Cur<'_>) -> Result<Kind, ReadRefusal>
    ensures { Gives (λ x. x) result cur.new (admit_at cur.old) }
{
    let user = cur.u32()?;
    let role = role_at(cur)?;
    let slot = cur.u8_within(0, SLOT_MAX)?;
    let wraps = wraps_at(alloc, cur)?;
    Ok(Kind::Admit {
        user,
        role,
        slot,
        wraps,
    })
}

#[tactic(auto, unfolding(crate::specs::Reading::remove_at))]
fn remove_at(alloc: Global, cur: &mut Cur<'_>) -> Result<Kind, ReadRefusal>
    ensures { Gives (λ x. x) result cur.new (remove_at cur.old) }
{
    let user = cur.u32()?;
    let slot = cur.u8_within(0, SLOT_MAX)?;
    let wraps = wraps_at(alloc, cur)?;
    Ok(Kind::Remove { user, slot, wraps })
}

/// What follows a kind's tag.
#[tactic(auto, unfolding(crate::specs::Reading::kind_behind_at))]
fn kind_behind_at(alloc: Global, cur: &mut Cur<'_>, tag: u8) -> Result<Kind, ReadRefusal>
    ensures { Gives (λ x. x) result cur.new (kind_behind_at tag cur.old) }
{
    match tag {
        POST_TAG => post_at(alloc, cur),
        ADMIT_TAG => admit_at(alloc, cur),
        REMOVE_TAG => remove_at(alloc, cur),
        _ => Err(ReadRefusal::NotForm),
    }
}

#[tactic(auto, unfolding(crate::specs::Reading::kind_at))]
fn kind_at(alloc: Global, cur: &mut Cur<'_>) -> Result<Kind, ReadRefusal>
    ensures { Gives (λ x. x) result cur.new (kind_at cur.old) }
{
    let tag = cur.u8()?;
    let kind = kind_behind_at(alloc, cur, tag)?;
    Ok(kind)
}

// ---- views, operations and leaves

/// The root of a view of nothing.
#[tactic(auto, unfolding(crate::specs::Spelling::no_root))]
pub(crate) fn zero_root() -> Dig
    ensures { result ≡ no_root }
{
    [0; 32]
}

/// The root and the signature of a view of this size.
#[tactic(auto, unfolding(crate::specs::Reading::signed_at))]
fn signed_at(alloc: Global, cur: &mut Cur<'_>, size: u64) -> Result<(Dig, Bytes), ReadRefusal>
    ensures { Gives (λ x. (x.0, x.1)) result cur.new (signed_at size cur.old) }
{
    if size == 0 {
        return Ok((zero_root(), Bytes::of(Vec::new(alloc))));
    }
    let root = dig_at(cur)?;
    let sig = signature_at(alloc, cur)?;
    Ok((root, sig))
}

/// A view of a wall at the front of the bytes: its size and, where it shows something, its root and signature. The
/// wall's number isn't spelled in it.
///
/// # Errors
/// `NotForm` exactly where no view stands there; `NoMemory`.
#[tactic(auto, unfolding(crate::specs::Reading::view_at))]
pub fn view_at(alloc: Global, cur: &mut Cur<'_>, wall: u32) -> Result<View, ReadRefusal>
    ensures read { Gives (λ x. x) result cur.new (view_at wall cur.old) }
{
    let size = cur.u64_within(0, VIEW_SIZE_MAX)?;
    let (root, sig) = signed_at(alloc, cur, size)?;
    Ok(View {
        wall,
        size,
        root,
        sig,
    })
}

#[tactic(auto, unfolding(crate::specs::Reading::op_at))]
fn op_at(alloc: Global, cur: &mut Cur<'_>) -> Result<Op, ReadRefusal>
    ensures { Gives (λ x. x) result cur.new (op_at cur.old) }
{
    let wall = cur.u32()?;
    let author = cur.u32()?;
    let seq = cur.u32_within(0, SEQ_MAX)?;
    let epoch = cur.u64()?;
    let view = view_at(alloc, cur, wall)?;
    let kind = kind_at(alloc, cur)?;
    let sig = signature_at(alloc, cur)?;
    Ok(Op {
        wall,
        author,
        seq,
        epoch,
        view,
        kind,
        sig,
    })
}

#[tactic(auto, unfolding(crate::specs::Reading::leaf_at))]
fn leaf_at(alloc: Global, cur: &mut Cur<'_>) -> Result<Leaf, ReadRefusal>
    ensures { Gives (λ x. x) result cur.new (leaf_at cur.old) }
{
    let after = dig_at(cur)?;
    let epoch = cur.u64()?;
    let op = op_at(alloc, cur)?;
    Ok(Leaf { after, epoch, op })
}

fn whole_op(alloc: Global, bytes: &[u8]) -> Result<Op, ReadRefusal>
    ensures { GivesAll (λ x. x) result (all_of op_at bytes.now) }
{
    let mut cur = Cur::new(bytes);
    let op = op_at(alloc, &mut cur)?;
    if cur.left() != 0 {
        return Err(ReadRefusal::NotForm);
    }
    Ok(op)
}

fn whole_leaf(alloc: Global, bytes: &[u8]) -> Result<Leaf, ReadRefusal>
    ensures { GivesAll (λ x. x) result (all_of leaf_at bytes.now) }
{
    let mut cur = Cur::new(bytes);
    let leaf = leaf_at(alloc, &mut cur)?;
    if cur.left() > 0 {
        return Err(ReadRefusal::NotForm);
    }
    Ok(leaf)
}

/// The operation that `bytes` spell, all of them. `NotForm` comes exactly where they spell none.
pub fn read_op(alloc: Global, bytes: &[u8]) -> Result<Op, ReadRefusal>
    ensures found { IfOk result (λ op. SpellsOp op bytes.now) }
    ensures not_form { IsErrOf result ReadRefusal.NotForm → (op : Op) → SpellsOp op bytes.now → ⊥ }
    ensures exact { GivesAll (λ x. x) result (all_of op_at bytes.now) }
{
    whole_op(alloc, bytes)
}

/// The leaf that `bytes` spell, all of them. `NotForm` comes exactly where they spell none.
pub fn read_leaf(alloc: Global, bytes: &[u8]) -> Result<Leaf, ReadRefusal>
    ensures found { IfOk result (λ leaf. SpellsLeaf leaf bytes.now) }
    ensures not_form { IsErrOf result ReadRefusal.NotForm → (leaf : Leaf) → SpellsLeaf leaf bytes.now → ⊥ }
    ensures exact { GivesAll (λ x. x) result (all_of leaf_at bytes.now) }
{
    whole_leaf(alloc, bytes)
}
