ghost use Rattle.hall_core.specs.declared.facts.WallFacts.{WallFacts};
ghost use Rattle.hall_core.specs.Honest.{IsHonest};
ghost use Rattle.hall_core.specs.Snapshots.{Stands};
ghost use Rattle.hall_replies.specs.Kept.{IsKept, IsOfHonest, leaves_of};
ghost use Rattle.hall_replies.specs.KeyOps.{change_marks, key_tree};
ghost use Rattle.hist_proof.specs.Spelling.{Spells};
ghost use Rattle.honest_replies.specs.HonestReply.{KeysReply};
ghost use Rattle.op_types.specs.declared.op.Leaf.{Leaf};
ghost use Rattle.std.specs.Prelude.{◌≡◌, ◌<◌, ◌≤◌, IfOk, List, length, take};
ghost use Rattle.tree_prune.specs.LeastHistory.{listed};

use crate::ranges::{digests_fit, wall_fits};
use fr_bytes::{Bytes, NoMemory};
use fr_digest::Digester;
use hall_core::Snapshot;
use hist_proof::write_pruned;
use msg_form::{Reply, write_reply};
use std::alloc::Global;
use tree_prune::prune_at;

/// The positions of the changes of the access list among the first `size`.
fn changes<D: Digester>(alloc: Global, snap: &Snapshot<D>, size: u64) -> Result<Vec<u64>, NoMemory>
    requires within { size ≤ length snap.now.history }
    ensures { IfOk result (λ positions. listed positions.items size ≡ change_marks (take size (leaves_of snap.now))) }
{
    let mut positions = Vec::new(alloc);
    for k in 0..size {
        if snap.history().item(k).leaf.op.kind.is_change() {
            positions.push(k)?;
        }
    }
    Ok(positions)
}

/// The text of the pruned tree that shows the changes among the first `size` positions.
fn changes_text<D: Digester>(
    alloc: Global,
    snap: &Snapshot<D>,
    size: u64,
) -> Result<Bytes, NoMemory>
    requires kept { IsKept D.digest_of snap.now }
    requires some { 0 < size }
    requires within { size ≤ length snap.now.history }
    ensures { IfOk result (λ bytes. Spells (key_tree D.digest_of (take size (leaves_of snap.now))) bytes) }
{
    let positions = changes(alloc, snap, size)?;
    let tree = prune_at(alloc, snap.history(), size, &positions)?;
    digests_fit(&tree);
    write_pruned(alloc, &tree)
}

/// The bytes that an honest server replies with to who has accepted `size` positions of the wall and asks for the changes
/// of its access list: a pruned tree of these positions that shows exactly the changes. Nothing is hashed that the
/// history keeps.
pub fn show_keys<D: Digester>(
    alloc: Global,
    snap: &Snapshot<D>,
    size: u64,
) -> Result<Bytes, NoMemory>
    requires honest { IsOfHonest D.digest_of snap.now }
    requires some { 0 < size }
    requires within { size ≤ length snap.now.history }
    ensures { (facts : WallFacts) (L : List Leaf) → Stands D.digest_of facts L snap.now → IsHonest D.digest_of facts L
        → IfOk result (λ bytes. KeysReply D.digest_of facts.wall L size bytes) }
{
    let tree = changes_text(alloc, snap, size)?;
    let wall = snap.view().wall;
    wall_fits(wall);
    write_reply(alloc, &Reply::KeyOps { wall, size, tree })
}
