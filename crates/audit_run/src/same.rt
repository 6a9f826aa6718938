//! Whether two operations or leaves are one.
ghost use Rattle.std.specs.Prelude.{◌≡◌, ◌↔◌, IsTrue};

use op_types::{Kind, Leaf, Op, View, Wrap};

fn is_same_text(a: &[u8], b: &[u8]) -> bool
    ensures { IsTrue result ↔ (a.now ≡ b.now) }
{
    a == b
}

fn is_same_view(view: &View, other: &View) -> bool
    ensures { IsTrue result ↔ (view.now ≡ other.now) }
{
    view.wall == other.wall
        && view.size == other.size
        && view.root == other.root
        && is_same_text(view.sig.as_slice(), other.sig.as_slice())
}

fn is_same_wrap(a: &Wrap, b: &Wrap) -> bool
    ensures { IsTrue result ↔ (a.now ≡ b.now) }
{
    a.child == b.child && a.child_gen == b.child_gen && a.body == b.body
}

fn are_same_wraps(a: &[Wrap], b: &[Wrap]) -> bool
    ensures { IsTrue result ↔ (a.now ≡ b.now) }
{
    if a.len() != b.len() {
        return false;
    }
    for i in 0..a.len() {
        if !is_same_wrap(&a[i], &b[i]) {
            return false;
        }
    }
    true
}

fn is_same_kind(a: &Kind, b: &Kind) -> bool
    ensures { IsTrue result ↔ (a.now ≡ b.now) }
{
    match (a, b) {
        (Kind::Post { body }, Kind::Post { body: other }) => {
            is_same_text(body.as_slice(), other.as_slice())
        }
        (
            Kind::Admit {
                user,
                role,
                slot,
                wraps,
            },
            Kind::Admit {
                user: other_user,
                role: other_role,
                slot: other_slot,
                wraps: other_wraps,
            },
        ) => {
            user == other_user
                && role == other_role
                && slot == other_slot
                && are_same_wraps(wraps.as_slice(), other_wraps.as_slice())
        }
        (
            Kind::Remove { user, slot, wraps },
            Kind::Remove {
                user: other_user,
                slot: other_slot,
                wraps: other_wraps,
            },
        ) => {
            user == other_user
                && slot == other_slot
                && are_same_wraps(wraps.as_slice(), other_wraps.as_slice())
        }
        _ => false,
    }
}

/// Whether both are one operation.
pub(crate) fn is_same_op(a: &Op, b: &Op) -> bool
    ensures { IsTrue result ↔ (a.now ≡ b.now) }
{
    a.wall == b.wall
        && a.author == b.author
        && a.seq == b.seq
        && a.epoch == b.epoch
        && is_same_view(&a.view, &b.view)
        && is_same_kind(&a.kind, &b.kind)
        && is_same_text(a.sig.as_slice(), b.sig.as_slice())
}

/// Whether both are one leaf.
pub(crate) fn is_same_leaf(a: &Leaf, b: &Leaf) -> bool
    ensures { IsTrue result ↔ (a.now ≡ b.now) }
{
    a.after == b.after && a.epoch == b.epoch && is_same_op(&a.op, &b.op)
}
