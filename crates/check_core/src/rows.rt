ghost use Rattle.std.specs.Prelude.{◌≡◌, ◌+◌, ◌<◌, ◌≤◌, ◌^◌, IfOk, length, map, nat_eq, nat_lt, is_none, ◌&&◌, true};
ghost use Rattle.std.specs.List.{AllByRecursion};
ghost use Rattle.op_types.specs.Spelling.{IsLeaf};
ghost use Rattle.hist_proof.specs.Pruned.{at, fits};
ghost use Rattle.dict_proof.specs.View.{list_view};
ghost use Rattle.check_rules.specs.Heard.{holds_leaves};
ghost use Rattle.check_rules.specs.Shown.{leaves_among, leaves_from};
ghost use Rattle.check_rules.specs.Verdict.{early_verdict, is_bad_from, is_bad_shape, late_verdict, tree_verdict, vouch_verdict, vouches};

use crate::positions::{is_root, positions_verdict};
use crate::shown::{anchor, shows_from};
use crate::told::told_before;
use check_rules::Known;
use dict_proof::PrunedDict;
use fr_bytes::NoMemory;
use fr_digest::{Dig, Digester};
use hist_proof::DigestedTree;
use msg_form::Verdict;
use op_types::{Leaf, View};
use signed_ops::is_view_signed;
use std::alloc::Global;
use vouch_rule::{Vouch, vouchers};

/// The first of the rows over the view alone that applies. Whether the reply is of another wall is told.
#[tactic(auto, unfolding(check_rules::specs::Verdict::early_verdict))]
pub(crate) fn early_verdict(known: &Known, other_wall: bool, view: &View) -> Option<Verdict>
    ensures { result ≡ early_verdict known.now other_wall view.now }
{
    if other_wall {
        return Some(Verdict::WrongWall);
    }
    if view.size > 0 && !is_view_signed(&known.server, view) {
        return Some(Verdict::BadServerSignature);
    }
    if view.size < known.size {
        return Some(Verdict::Shorter);
    }
    if view.size == known.size && known.size > 0 && view.root != known.root {
        return Some(Verdict::Forked);
    }
    None
}

/// Whether what is shown begins behind what the client has accepted, or at no position.
pub(crate) fn is_bad_from(known: &Known, view: &View, from: u64) -> bool
    ensures { result ≡ is_bad_from known.now view.now from }
{
    from < known.size || from >= view.size
}

/// Whether the view covers as many positions as the client has accepted.
pub(crate) fn is_same_size(known: &Known, view: &View) -> bool
    ensures { result ≡ nat_eq view.now.size known.now.size }
{
    view.size == known.size
}

/// Whether the client has accepted a version whose root isn't there.
fn is_missing(known: &Known, accepted: Option<Dig>) -> bool
    ensures { result ≡ (nat_lt 0 known.now.size && is_none accepted) }
{
    known.size > 0 && accepted.is_none()
}

/// Whether a position that has to be shown isn't, or the accepted version can't be computed.
fn is_bad_shape<D: Digester>(
    known: &Known,
    tree: &DigestedTree<D>,
    from: u64,
    accepted: Option<Dig>,
) -> bool
    requires version { accepted ≡ at D.digest_of tree.now.tree tree.now.size known.now.size }
    requires within { from ≤ tree.now.size }
    requires fitting { fits tree.now.tree tree.now.size ≡ true }
    ensures { result ≡ is_bad_shape known.now tree.now.size from tree.now.tree }
{
    if !shows_from::<D>(tree, from.saturating_sub(1)) {
        return true;
    }
    is_missing(known, accepted)
}

/// The first of the rows over the tree that applies.
#[tactic(auto, unfolding(check_rules::specs::Verdict::tree_verdict))]
fn tree_verdict<D: Digester>(
    known: &Known,
    view: &View,
    from: u64,
    tree: &DigestedTree<D>,
) -> Option<Verdict>
    requires size { tree.now.size ≡ view.now.size }
    requires fitting { fits tree.now.tree tree.now.size ≡ true }
    ensures { result ≡ tree_verdict D.digest_of known.now view.now from tree.now.tree }
{
    if is_bad_from(known, view, from) {
        return Some(Verdict::BadFrom);
    }
    let accepted = tree.digest_at(known.size);
    if is_bad_shape::<D>(known, tree, from, accepted) {
        return Some(Verdict::BadShape);
    }
    if tree.digest() != view.root {
        return Some(Verdict::RootMismatch);
    }
    if known.size > 0 && !is_root(accepted, &known.root) {
        return Some(Verdict::Forked);
    }
    None
}

/// The operations of leaves, as they vouch.
fn vouches(alloc: Global, leaves: &[Leaf]) -> Result<Vec<Vouch>, NoMemory>
    ensures { IfOk result (λ ops. ops.items ≡ vouches leaves.now) }
{
    let ops: Vec<Vouch> = leaves
        .iter()
        .map(|leaf| Vouch {
            author: leaf.op.author,
            size: leaf.op.view.size,
        })
        .collect(alloc)?;
    Ok(ops)
}

/// The row over those who vouch for the positions that aren't shown.
#[tactic(auto, unfolding(check_rules::specs::Verdict::vouch_verdict))]
fn vouch_verdict(
    alloc: Global,
    known: &Known,
    from: u64,
    leaves: &[Leaf],
) -> Result<Option<Verdict>, NoMemory>
    requires f { known.now.f ≤ 31 }
    requires few { length leaves.now < 2 ^ 32 }
    ensures { IfOk result (λ v. v ≡ vouch_verdict known.now from leaves.now) }
{
    if from <= known.size {
        return Ok(None);
    }
    let ops = vouches(alloc, leaves)?;
    let found = vouchers(&ops, from);
    if found > known.f {
        return Ok(None);
    }
    Ok(Some(Verdict::TooFewVouch {
        found,
        needed: known.f + 1,
    }))
}

/// The first of the rows over the tree, over who vouches and over the positions from `from` on that applies.
pub(crate) fn late_verdict<D: Digester>(
    alloc: Global,
    known: &Known,
    view: &View,
    from: u64,
    tree: &DigestedTree<D>,
    before: &[Leaf],
    leaves: &[Leaf],
    lists: &[PrunedDict],
) -> Result<Option<Verdict>, NoMemory>
    requires f { known.now.f ≤ 31 }
    requires size { tree.now.size ≡ view.now.size }
    requires few { view.now.size < 2 ^ 32 }
    requires fitting { fits tree.now.tree tree.now.size ≡ true }
    requires holds { holds_leaves tree.now.tree ≡ true }
    requires front { before.now ≡ leaves_among tree.now.tree tree.now.size 0 from }
    requires behind { leaves.now ≡ leaves_from tree.now.tree tree.now.size from }
    requires spelled { AllByRecursion IsLeaf leaves.now }
    requires within { from + length leaves.now ≤ view.now.size }
    ensures { IfOk result (λ v. v ≡ late_verdict D.digest_of known.now view.now from tree.now.tree
        (map list_view lists.now)) }
{
    let verdict = tree_verdict::<D>(known, view, from, tree);
    if verdict.is_some() {
        return Ok(verdict);
    }
    let verdict = vouch_verdict(alloc, known, from, leaves)?;
    if verdict.is_some() {
        return Ok(verdict);
    }
    let first = told_before::<D>(alloc, known.owner, anchor::<D>(tree, from, before))?;
    positions_verdict::<D>(alloc, known, tree, first, from, leaves, lists)
}
