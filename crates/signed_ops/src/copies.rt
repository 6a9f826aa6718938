//! Copies of operations, leaves and views, in memory of the same allocators but for lists of them.
ghost use Rattle.std.specs.Prelude.{◌≡◌, IfOk};

use fr_bytes::{NoMemory, Sequence};
use op_types::{Kind, Leaf, Leaves, Op, View};
use std::alloc::Global;

/// The same view.
pub fn view_copy(view: &View) -> Result<View, NoMemory>
    ensures { IfOk result (λ same. same ≡ view.now) }
{
    Ok(View {
        wall: view.wall,
        size: view.size,
        root: view.root,
        sig: view.sig.copy()?,
    })
}

/// The same kind.
fn kind_copy(kind: &Kind) -> Result<Kind, NoMemory>
    ensures { IfOk result (λ same. same ≡ kind.now) }
{
    match kind {
        Kind::Post { body } => Ok(Kind::Post { body: body.copy()? }),
        Kind::Admit {
            user,
            role,
            slot,
            wraps,
        } => Ok(Kind::Admit {
            user: *user,
            role: *role,
            slot: *slot,
            wraps: wraps.copy()?,
        }),
        Kind::Remove { user, slot, wraps } => Ok(Kind::Remove {
            user: *user,
            slot: *slot,
            wraps: wraps.copy()?,
        }),
    }
}

/// The same operation.
pub fn op_copy(op: &Op) -> Result<Op, NoMemory>
    ensures { IfOk result (λ same. same ≡ op.now) }
{
    Ok(Op {
        wall: op.wall,
        author: op.author,
        seq: op.seq,
        epoch: op.epoch,
        view: view_copy(&op.view)?,
        kind: kind_copy(&op.kind)?,
        sig: op.sig.copy()?,
    })
}

/// The same leaf.
pub fn leaf_copy(leaf: &Leaf) -> Result<Leaf, NoMemory>
    ensures { IfOk result (λ same. same ≡ leaf.now) }
{
    Ok(Leaf {
        after: leaf.after,
        epoch: leaf.epoch,
        op: op_copy(&leaf.op)?,
    })
}

/// The same leaves, in order.
pub fn leaves_copy(alloc: Global, leaves: &[Leaf]) -> Result<Leaves, NoMemory>
    ensures { IfOk result (λ same. same ≡ leaves.now) }
{
    let mut same = Vec::new(alloc);
    for leaf in leaves {
        same.push(leaf_copy(leaf)?)?;
    }
    Ok(Sequence::of(same))
}
