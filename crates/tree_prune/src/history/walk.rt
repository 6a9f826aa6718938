ghost use Rattle.hist_proof.specs.Pruned.{leaf, node, single};
ghost use Rattle.hist_proof.specs.View.{tree_view};
ghost use Rattle.hist_tree.specs.Nodes.{node_texts};
ghost use Rattle.std.specs.Prelude.{◌≡◌, ◌+◌, ◌-◌, ◌%◌, ◌^◌, ◌<◌, ◌≤◌, IfOk, length, map, min, take};
ghost use Rattle.tree_model.specs.History.{depth, part};
ghost use Rattle.tree_prune.specs.LeastHistory.{least, numbered};
ghost use Rattle.tree_prune.specs.Wanted.{is_wanted};

use super::wanted::Wanted;
use fr_bytes::{Bytes, NoMemory};
use fr_digest::Digester;
use hist_proof::Pruned;
use hist_tree::Hist;
use std::alloc::Global;
use tree_model::{HasText, depth_of, left_leaves};

fn leaf(alloc: Global, text: &[u8]) -> Result<Pruned, NoMemory>
    ensures { IfOk result (λ p. tree_view p ≡ leaf text.now) }
{
    Ok(Pruned::Leaf(Bytes::of(Vec::from_slice(alloc, text)?)))
}

fn single(alloc: Global, left: Pruned) -> Result<Pruned, NoMemory>
    ensures { IfOk result (λ p. tree_view p ≡ single (tree_view left)) }
{
    Ok(Pruned::Single(Box::new(alloc, left)?))
}

fn node(alloc: Global, left: Pruned, right: Pruned) -> Result<Pruned, NoMemory>
    ensures { IfOk result (λ p. tree_view p ≡ node (tree_view left) (tree_view right)) }
{
    let left = Box::new(alloc, left)?;
    let right = Box::new(alloc, right)?;
    Ok(Pruned::Node(left, right))
}

/// The least pruning of the node of height `level` over the positions from `start` up to but not including `end`, in
/// version `size`.
fn pruned<D: Digester, T: HasText + Drop>(
    alloc: Global,
    h: &Hist<D, T>,
    wanted: &Wanted<'_>,
    size: u64,
    level: u32,
    start: u64,
    end: u64,
) -> Result<Pruned, NoMemory>
    requires version { size ≤ length h.now }
    requires within { start < size }
    requires aligned { start % 2 ^ level ≡ 0 }
    requires height { level ≤ depth size }
    requires ends { end ≡ start + min (2 ^ level) (size - start) }
    ensures { IfOk result (λ p. tree_view p ≡ least (part D.digest_of) level
        (node_texts size level start (map T.text_of h.now))
        (numbered (is_wanted wanted.now.from wanted.now.positions.now) start (end - start))
        (map (λ v. v - start) wanted.now.versions.now)) }
{
    if !wanted.enters(level, start, end) {
        return Ok(Pruned::Hidden(h.part(size, level, start)));
    }
    if level == 0 {
        return leaf(alloc, h.item(start).text());
    }
    let half = left_leaves(level) as u64;
    if end - start <= half {
        let left = pruned(alloc, h, wanted, size, level - 1, start, end)?;
        return single(alloc, left);
    }
    let middle = start + half;
    let left = pruned(alloc, h, wanted, size, level - 1, start, middle)?;
    let right = pruned(alloc, h, wanted, size, level - 1, middle, end)?;
    node(alloc, left, right)
}

/// The least pruning of version `size`.
pub(super) fn whole<D: Digester, T: HasText + Drop>(
    alloc: Global,
    h: &Hist<D, T>,
    wanted: &Wanted<'_>,
    size: u64,
) -> Result<Pruned, NoMemory>
    requires some { 0 < size }
    requires version { size ≤ length h.now }
    ensures { IfOk result (λ p. tree_view p ≡ least (part D.digest_of) (depth size)
        (take size (map T.text_of h.now))
        (numbered (is_wanted wanted.now.from wanted.now.positions.now) 0 size) wanted.now.versions.now) }
{
    pruned(alloc, h, wanted, size, depth_of(size), 0, size)
}
