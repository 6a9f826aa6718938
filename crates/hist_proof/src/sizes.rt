ghost use Rattle.hist_proof.specs.Pruned.{fits, fits_at};
ghost use Rattle.hist_proof.specs.View.{tree_view};
ghost use Rattle.std.specs.Prelude.{◌≡◌, ◌<◌, ◌≤◌, ◌-◌, ◌^◌};

use crate::pruned::Pruned;
use tree_model::{depth_of, left_leaves};

/// How many positions the left half of a node of height `level` has.
pub(crate) fn half(level: u32) -> u64
    requires above { 0 < level }
    requires levels { level ≤ 64 }
    ensures { result ≡ 2 ^ (level - 1) }
{
    left_leaves(level) as u64
}

/// Whether `p` is a pruned tree of height `level` over `size` positions.
#[tactic(auto, using(crate::proofs::Halving::fits_steps))]
fn fits_at(p: &Pruned, level: u32, size: u64) -> bool
    requires levels { level ≤ 64 }
    ensures { result ≡ fits_at level (tree_view p.now) size }
{
    match p {
        Pruned::Hidden(_) => true,
        Pruned::Leaf(_) => level == 0,
        Pruned::Node(left, right) => {
            if level == 0 {
                return false;
            }
            let middle = half(level);
            if size <= middle || !fits_at(left, level - 1, middle) {
                return false;
            }
            fits_at(right, level - 1, size - middle)
        }
        Pruned::Single(left) => {
            if level == 0 || half(level) < size {
                return false;
            }
            fits_at(left, level - 1, size)
        }
    }
}

/// Whether `p` is a pruned tree of `size` leaves. Any tree and any size may be asked about: no more than 64
/// levels are walked. Takes no memory.
#[tactic(auto, unfolding(crate::specs::Pruned::fits))]
pub fn fits(p: &Pruned, size: u64) -> bool
    ensures { result ≡ fits (tree_view p.now) size }
{
    size > 0 && fits_at(p, depth_of(size), size)
}
