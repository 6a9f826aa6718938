ghost use Rattle.hist_proof.specs.Pruned.{fits};
ghost use Rattle.hist_proof.specs.Shown.{shown, shown_at};
ghost use Rattle.hist_proof.specs.View.{tree_view};
ghost use Rattle.std.specs.Option.{option_map};
ghost use Rattle.std.specs.Prelude.{◌≡◌, ◌≤◌, true};

use crate::pruned::Pruned;
use crate::sizes::{fits, half};
use tree_model::depth_of;

/// The text at position `k` of a tree of height `level`, where it is shown.
#[tactic(auto, using(crate::proofs::Halving::shown_steps))]
fn text_at(p: &Pruned, level: u32, k: u64) -> Option<&[u8]>
    requires levels { level ≤ 64 }
    ensures { option_map (λ t. t.now) result ≡ shown_at level (tree_view p.now) k }
{
    match p {
        Pruned::Hidden(_) => None,
        Pruned::Leaf(text) => {
            if level == 0 {
                Some(text.as_slice())
            } else {
                None
            }
        }
        Pruned::Node(left, right) => {
            if level == 0 {
                return None;
            }
            let middle = half(level);
            if k < middle {
                return text_at(left, level - 1, k);
            }
            text_at(right, level - 1, k - middle)
        }
        Pruned::Single(left) => {
            if level == 0 {
                return None;
            }
            text_at(left, level - 1, k)
        }
    }
}

/// The text at position `k` of a pruned tree that fits its size.
#[tactic(auto, unfolding(crate::specs::Shown::shown))]
pub(crate) fn fitting_leaf(p: &Pruned, size: u64, k: u64) -> Option<&[u8]>
    requires { fits (tree_view p.now) size ≡ true }
    ensures { option_map (λ t. t.now) result ≡ shown (tree_view p.now) size k }
{
    if size <= k {
        return None;
    }
    text_at(p, depth_of(size), k)
}

/// The text at position `k`, counted from 0, of a pruned tree of `size` leaves: `Some` exactly where `p` is one
/// and shows the position. Takes no memory.
#[tactic(auto, unfolding(crate::specs::Shown::shown))]
pub fn leaf_at(p: &Pruned, size: u64, k: u64) -> Option<&[u8]>
    ensures { option_map (λ t. t.now) result ≡ shown (tree_view p.now) size k }
{
    if !fits(p, size) {
        return None;
    }
    fitting_leaf(p, size, k)
}
