//! The pruned tree that shows what is new.
ghost use Rattle.check_rules.specs.Verdict.{vouches};
ghost use Rattle.hall_replies.specs.Kept.{IsKept, leaves_of};
ghost use Rattle.hall_replies.specs.Shown.{news_tree, view_sizes};
ghost use Rattle.hist_proof.specs.Spelling.{Spells};
ghost use Rattle.std.specs.Prelude.{◌≡◌, ◌<◌, ◌≤◌, ◌++◌, ◌∷◌, [], IfOk, drop, length, map};
ghost use Rattle.vouch_rule.specs.declared.vouch.Vouch.{Vouch};

use crate::ranges::digests_fit;
use fr_bytes::{Bytes, NoMemory};
use fr_digest::Digester;
use hall_core::Snapshot;
use hist_proof::write_pruned;
use std::alloc::Global;
use tree_prune::prune;
use vouch_rule::Vouch;

/// The operations at position `from` and later, as they vouch.
pub(crate) fn vouches<D: Digester>(
    alloc: Global,
    snap: &Snapshot<D>,
    from: u64,
) -> Result<Vec<Vouch>, NoMemory>
    requires within { from ≤ length snap.now.history }
    ensures { IfOk result (λ ops. ops.items ≡ vouches (drop from (leaves_of snap.now))) }
{
    let mut ops = Vec::new(alloc);
    for k in from..snap.size() {
        let op = &snap.history().item(k).leaf.op;
        ops.push(Vouch {
            author: op.author,
            size: op.view.size,
        })?;
    }
    Ok(ops)
}

/// The sizes of the views that operations embed.
fn sizes_of(alloc: Global, ops: &[Vouch]) -> Result<Vec<u64>, NoMemory>
    ensures { IfOk result (λ sizes. sizes.items ≡ map (λ (o : Vouch). o.size) ops.now) }
{
    Ok(ops.iter().map(|op| op.size).collect(alloc)?)
}

/// The sizes of the views that the positions from `from` on embed, and `have`.
fn versions<D: Digester>(
    alloc: Global,
    snap: &Snapshot<D>,
    have: u64,
    from: u64,
) -> Result<Vec<u64>, NoMemory>
    requires within { from ≤ length snap.now.history }
    ensures { IfOk result (λ sizes. sizes.items ≡ view_sizes (drop from (leaves_of snap.now)) ++ have ∷ []) }
{
    let ops = vouches(alloc, snap, from)?;
    let mut sizes = sizes_of(alloc, &ops)?;
    sizes.push(have)?;
    Ok(sizes)
}

/// The text of the pruned tree that shows the positions from `from` on, and the one in front of them, to who has accepted
/// `have` positions.
pub(crate) fn news_text<D: Digester>(
    alloc: Global,
    snap: &Snapshot<D>,
    have: u64,
    from: u64,
) -> Result<Bytes, NoMemory>
    requires kept { IsKept D.digest_of snap.now }
    requires within { from < length snap.now.history }
    ensures { IfOk result (λ bytes. Spells (news_tree D.digest_of (leaves_of snap.now) have from) bytes) }
{
    let versions = versions(alloc, snap, have, from)?;
    let tree = prune(alloc, snap.history(), snap.size(), from, &versions)?;
    digests_fit(&tree);
    write_pruned(alloc, &tree)
}
