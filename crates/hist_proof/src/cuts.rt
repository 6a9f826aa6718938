ghost use Rattle.hist_proof.specs.Pruned.{cut, cut_at, cut_in, node, single};
ghost use Rattle.hist_proof.specs.Spelling.{IsSpelled};
ghost use Rattle.hist_proof.specs.View.{tree_view};
ghost use Rattle.std.specs.Option.{option_map};
ghost use Rattle.std.specs.Prelude.{◌≡◌, ◌≤◌, IfOk, IfSome};

use crate::pruned::Pruned;
use crate::sizes::{fits, half};
use fr_bytes::NoMemory;
use std::alloc::Global;
use tree_model::depth_of;

/// A node of two halves.
pub(crate) fn node(alloc: Global, left: Pruned, right: Pruned) -> Result<Pruned, NoMemory>
    ensures { IfOk result (λ p. tree_view p ≡ node (tree_view left) (tree_view right)) }
{
    let left = Box::new(alloc, left)?;
    let right = Box::new(alloc, right)?;
    Ok(Pruned::Node(left, right))
}

/// A node without a right half.
pub(crate) fn single(alloc: Global, left: Pruned) -> Result<Pruned, NoMemory>
    ensures { IfOk result (λ p. tree_view p ≡ single (tree_view left)) }
{
    Ok(Pruned::Single(Box::new(alloc, left)?))
}

/// The same tree.
fn copy(alloc: Global, p: &Pruned) -> Result<Pruned, NoMemory>
    ensures { IfOk result (λ same. tree_view same ≡ tree_view p.now) }
{
    match p {
        Pruned::Hidden(digest) => Ok(Pruned::Hidden(*digest)),
        Pruned::Leaf(text) => Ok(Pruned::Leaf(text.copy()?)),
        Pruned::Node(left, right) => {
            let left = copy(alloc, left)?;
            let right = copy(alloc, right)?;
            node(alloc, left, right)
        }
        Pruned::Single(left) => {
            let left = copy(alloc, left)?;
            single(alloc, left)
        }
    }
}

/// A node without a right half, where there is a left one.
fn single_of(alloc: Global, left: Option<Pruned>) -> Result<Option<Pruned>, NoMemory>
    ensures { IfOk result (λ p. option_map tree_view p ≡ option_map (λ c. single c) (option_map tree_view left)) }
{
    match left {
        None => Ok(None),
        Some(left) => Ok(Some(single(alloc, left)?)),
    }
}

/// A node of a copy of this left half and this right half, where there is one.
fn node_of(alloc: Global, left: &Pruned, right: Option<Pruned>) -> Result<Option<Pruned>, NoMemory>
    ensures { IfOk result (λ p. option_map tree_view p
        ≡ option_map (λ c. node (tree_view left.now) c) (option_map tree_view right)) }
{
    match right {
        None => Ok(None),
        Some(right) => {
            let left = copy(alloc, left)?;
            Ok(Some(node(alloc, left, right)?))
        }
    }
}

/// The tree of the first `v` positions of a tree of height `level` over `size`.
#[tactic(auto, using(crate::proofs::Halving::cut_steps))]
fn cut_at(
    alloc: Global,
    p: &Pruned,
    level: u32,
    size: u64,
    v: u64,
) -> Result<Option<Pruned>, NoMemory>
    requires levels { level ≤ 64 }
    ensures { IfOk result (λ c. option_map tree_view c ≡ cut_at level (tree_view p.now) size v) }
{
    if size <= v {
        return Ok(Some(copy(alloc, p)?));
    }
    if level == 0 {
        return Ok(None);
    }
    match p {
        Pruned::Hidden(_) => Ok(None),
        Pruned::Leaf(_) => Ok(None),
        Pruned::Node(left, right) => {
            let middle = half(level);
            if v <= middle {
                let left = cut_at(alloc, left, level - 1, middle, v)?;
                return single_of(alloc, left);
            }
            let right = cut_at(alloc, right, level - 1, size - middle, v - middle)?;
            node_of(alloc, left, right)
        }
        Pruned::Single(left) => {
            let left = cut_at(alloc, left, level - 1, size, v)?;
            single_of(alloc, left)
        }
    }
}

/// The tree of the first `v` positions of a tree of height `level` over `size`, at their own height.
#[tactic(auto, using(crate::proofs::Halving::cut_in_steps))]
fn cut_in(
    alloc: Global,
    p: &Pruned,
    level: u32,
    size: u64,
    v: u64,
) -> Result<Option<Pruned>, NoMemory>
    requires levels { level ≤ 64 }
    ensures { IfOk result (λ c. option_map tree_view c ≡ cut_in level (tree_view p.now) size v) }
{
    if level == 0 {
        return cut_at(alloc, p, level, size, v);
    }
    let middle = half(level);
    if middle < v {
        return cut_at(alloc, p, level, size, v);
    }
    match p {
        Pruned::Node(left, _) => cut_in(alloc, left, level - 1, middle, v),
        Pruned::Hidden(_) | Pruned::Leaf(_) | Pruned::Single(_) => Ok(None),
    }
}

/// The pruned tree of the first `v` leaves of any tree, where there is one.
#[tactic(auto, unfolding(crate::specs::Pruned::cut))]
fn cut_any(alloc: Global, p: &Pruned, size: u64, v: u64) -> Result<Option<Pruned>, NoMemory>
    ensures { IfOk result (λ c. option_map tree_view c ≡ cut (tree_view p.now) size v) }
{
    if v == 0 || size < v || !fits(p, size) {
        return Ok(None);
    }
    cut_in(alloc, p, depth_of(size), size, v)
}

/// The pruned tree of the first `v` leaves of a pruned tree of `size` leaves: `None` exactly where `p` isn't a
/// pruned tree of this size, `v` is 0 or past the size, or version `v` ends within a hidden part. What it keeps
/// of `p` is copied.
pub fn cut(alloc: Global, p: &Pruned, size: u64, v: u64) -> Result<Option<Pruned>, NoMemory>
    ensures value { IfOk result (λ c. option_map tree_view c ≡ cut (tree_view p.now) size v) }
    ensures spelled { IsSpelled (tree_view p.now) → IfOk result (λ c. IfSome c (λ q. IsSpelled (tree_view q))) }
{
    cut_any(alloc, p, size, v)
}
