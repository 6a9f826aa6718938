ghost use Rattle.hist_proof.specs.Digested.{IsMarked};
ghost use Rattle.hist_proof.specs.Pruned.{at, cut_at, cut_in, digest_of, fits};
ghost use Rattle.hist_proof.specs.View.{marks_view, tree_view};
ghost use Rattle.std.specs.Option.{option_map};
ghost use Rattle.std.specs.Prelude.{◌≡◌, ◌≤◌, true};
ghost use Rattle.tree_model.specs.History.{pair_string, single_string};

use crate::marks::{Marks, digest_with};
use crate::pruned::Pruned;
use crate::sizes::{fits, half};
use fr_digest::{Dig, Digester};
use tree_model::depth_of;

/// The digest of a node without a right half.
fn single_digest<D: Digester>(left: Option<Dig>) -> Option<Dig>
    ensures { result ≡ option_map (λ x. D.digest_of (single_string x)) left }
{
    match left {
        None => None,
        Some(left) => Some(D::tagged(1, &[], &left)),
    }
}

/// The digest of a node with this left half.
fn node_digest<D: Digester>(left: &Dig, right: Option<Dig>) -> Option<Dig>
    ensures { result ≡ option_map (λ x. D.digest_of (pair_string left.now x)) right }
{
    match right {
        None => None,
        Some(right) => Some(D::tagged(1, left, &right)),
    }
}

/// The digest of the first `v` positions of a tree of height `level` over `size`.
#[tactic(auto, using(crate::proofs::Halving::cut_steps, crate::proofs::Marking::mapped))]
fn digest_short<D: Digester>(
    p: &Pruned,
    marks: &Marks,
    level: u32,
    size: u64,
    v: u64,
) -> Option<Dig>
    requires levels { level ≤ 64 }
    requires marked { IsMarked D.digest_of (marks_view marks.now) (tree_view p.now) }
    ensures { result ≡ option_map (digest_of D.digest_of) (cut_at level (tree_view p.now) size v) }
{
    if size <= v {
        return Some(digest_with::<D>(p, marks));
    }
    if level == 0 {
        return None;
    }
    match p {
        Pruned::Hidden(_) => None,
        Pruned::Leaf(_) => None,
        Pruned::Node(left, right) => {
            let middle = half(level);
            let (a, b) = marks.halves();
            if v <= middle {
                return single_digest::<D>(digest_short::<D>(left, a, level - 1, middle, v));
            }
            let right = digest_short::<D>(right, b, level - 1, size - middle, v - middle);
            node_digest::<D>(&digest_with::<D>(left, a), right)
        }
        Pruned::Single(left) => {
            single_digest::<D>(digest_short::<D>(left, marks.left(), level - 1, size, v))
        }
    }
}

/// The digest of the first `v` positions of a tree of height `level` over `size`, at their own height.
#[tactic(auto, using(crate::proofs::Halving::cut_in_steps))]
fn digest_in<D: Digester>(p: &Pruned, marks: &Marks, level: u32, size: u64, v: u64) -> Option<Dig>
    requires levels { level ≤ 64 }
    requires marked { IsMarked D.digest_of (marks_view marks.now) (tree_view p.now) }
    ensures { result ≡ option_map (digest_of D.digest_of) (cut_in level (tree_view p.now) size v) }
{
    if level == 0 {
        return digest_short::<D>(p, marks, level, size, v);
    }
    let middle = half(level);
    if middle < v {
        return digest_short::<D>(p, marks, level, size, v);
    }
    match p {
        Pruned::Node(left, _) => {
            let (a, _) = marks.halves();
            digest_in::<D>(left, a, level - 1, middle, v)
        }
        Pruned::Hidden(_) | Pruned::Leaf(_) | Pruned::Single(_) => None,
    }
}

/// The root of version `v` of a tree that fits its size.
#[tactic(auto, unfolding(crate::specs::Pruned::at, crate::specs::Pruned::cut))]
pub(crate) fn version_digest<D: Digester>(
    p: &Pruned,
    marks: &Marks,
    size: u64,
    v: u64,
) -> Option<Dig>
    requires fitting { fits (tree_view p.now) size ≡ true }
    requires marked { IsMarked D.digest_of (marks_view marks.now) (tree_view p.now) }
    ensures { result ≡ at D.digest_of (tree_view p.now) size v }
{
    if v == 0 || size < v {
        return None;
    }
    digest_in::<D>(p, marks, depth_of(size), size, v)
}

/// The root of version `v`, from a pruned tree of `size` leaves: `None` exactly where `p` isn't a pruned tree of
/// this size, `v` is 0 or past the size, or version `v` ends within a hidden part. Each node that it reads is
/// hashed once, and no memory is taken. [`DigestedTree`](crate::DigestedTree) is for many versions of one tree.
#[tactic(auto, unfolding(crate::specs::Pruned::at, crate::specs::Pruned::cut))]
pub fn digest_at<D: Digester>(p: &Pruned, size: u64, v: u64) -> Option<Dig>
    ensures { result ≡ at D.digest_of (tree_view p.now) size v }
{
    if !fits(p, size) {
        return None;
    }
    version_digest::<D>(p, &Marks::Absent, size, v)
}
