//! Pruned trees of histories.
mod laws;
mod walk;
mod wanted;

ghost use Rattle.hist_proof.specs.View.{tree_view};
ghost use Rattle.std.specs.Prelude.{◌≡◌, ◌-◌, ◌<◌, ◌≤◌, [], IfOk, length, map, take};
ghost use Rattle.tree_model.specs.History.{depth, part};
ghost use Rattle.tree_prune.specs.LeastHistory.{from_on, least, listed};

use fr_bytes::NoMemory;
use fr_digest::Digester;
use hist_proof::Pruned;
use hist_tree::Hist;
pub use laws::{least_trees, shown_lists};
use std::alloc::Global;
use tree_model::HasText;
use walk::whole;
use wanted::Wanted;

/// The least pruned tree of version `size` of a history that shows the positions from `from` on and the one before
/// them, and gives the root of each of `versions` that is one of it. A part is hidden exactly where it has no shown
/// position and no listed version ends within it. The digests that the history keeps are read and not computed.
pub fn prune<D: Digester, T: HasText + Drop>(
    alloc: Global,
    h: &Hist<D, T>,
    size: u64,
    from: u64,
    versions: &[u64],
) -> Result<Pruned, NoMemory>
    requires version { size ≤ length h.now }
    requires shown { from < size }
    ensures { IfOk result (λ p. tree_view p ≡ least (part D.digest_of) (depth size)
        (take size (map T.text_of h.now)) (from_on (from - 1) size) versions.now) }
{
    let wanted = Wanted {
        from: from.saturating_sub(1),
        positions: &[],
        versions,
    };
    whole(alloc, h, &wanted, size)
}

/// The least pruned tree of version `size` of a history that shows exactly those positions of the version that
/// `positions` has, counted from 0. Each part without one of them is hidden, so with none of them the tree is its
/// digest. The digests that the history keeps are read and not computed.
pub fn prune_at<D: Digester, T: HasText + Drop>(
    alloc: Global,
    h: &Hist<D, T>,
    size: u64,
    positions: &[u64],
) -> Result<Pruned, NoMemory>
    requires some { 0 < size }
    requires version { size ≤ length h.now }
    ensures { IfOk result (λ p. tree_view p ≡ least (part D.digest_of) (depth size)
        (take size (map T.text_of h.now)) (listed positions.now size) []) }
{
    let wanted = Wanted {
        from: size,
        positions,
        versions: &[],
    };
    whole(alloc, h, &wanted, size)
}
