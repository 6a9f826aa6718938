ghost use Rattle.std.specs.Prelude.{◌≡◌, ◌+◌, ◌<◌, ◌≤◌, ◌^◌, IfOk, None, Option, Some, length, map, nat_eq};
ghost use Rattle.std.specs.Option.{option_map};
ghost use Rattle.std.specs.List.{AllByRecursion};
ghost use Rattle.std.specs.Str.{bytes_eq};
ghost use Rattle.fr_digest.specs.Digest.{Digest};
ghost use Rattle.op_types.specs.Kinds.{changed_user};
ghost use Rattle.op_types.specs.Spelling.{IsLeaf, IsOp};
ghost use Rattle.hist_proof.specs.Pruned.{at};
ghost use Rattle.dict_proof.specs.Keeping.{KeepsAuthor};
ghost use Rattle.dict_proof.specs.View.{change_view, list_view};
ghost use Rattle.pruned_list.specs.PrunedList.{changed, digest_of, seek};
ghost use Rattle.signed_ops.specs.Signed.{is_view_signed};
ghost use Rattle.wall_law.specs.State.{change_of, epoch_after};
ghost use Rattle.wall_law.specs.Position.{is_root, is_seen, position_refusal};
ghost use Rattle.check_core.specs.Finding.{refusal_behind, told_view};
ghost use Rattle.check_rules.specs.Verdict.{finding, law_verdict, looked, looked_user, position_verdict, positions_verdict, verdict_at};

use crate::told::{Told, told_by};
use check_rules::Known;
use dict_proof::{Change, DictEnd, Found, PrunedDict, apply, copy, digest, find};
use fr_bytes::NoMemory;
use fr_digest::{Dig, Digester};
use hist_proof::DigestedTree;
use msg_form::Verdict;
use op_types::{Kind, Leaf, Op, View};
use signed_ops::{is_author_signed, is_view_signed};
use std::alloc::Global;
use tree_model::Entry;
use wall_law::{LawRefusal, PositionRefusal, judge_found};

/// What an operation does to the access list beside its author's entry.
fn change_of(kind: &Kind) -> Change
    ensures { change_view result ≡ change_of kind.now }
{
    match kind {
        Kind::Post { .. } => Change::None,
        Kind::Admit { user, role, .. } => Change::Insert(Entry {
            user: *user,
            role: *role,
            next: 0,
        }),
        Kind::Remove { user, .. } => Change::Remove(*user),
    }
}

/// What the search for a user finds, where it meets no hidden part.
fn looked(list: &PrunedDict, user: u32) -> Option<Option<Entry>>
    ensures { result ≡ looked (seek (list_view list.now) user) }
{
    match find(list, user) {
        Found::Entry(entry) => Some(Some(entry)),
        Found::Absent => Some(None),
        Found::Hid => None,
    }
}

/// What the search for the changed user finds, where it meets no hidden part.
fn looked_changed(list: &PrunedDict, kind: &Kind) -> Option<Option<Entry>>
    ensures { result ≡ looked_user (list_view list.now) (changed_user kind.now) }
{
    match kind.changed_user() {
        None => Some(None),
        Some(user) => looked(list, user),
    }
}

/// The digest of the list that an operation leaves, where that enters no hidden part.
fn after_digest<D: Digester>(
    alloc: Global,
    list: &PrunedDict,
    op: &Op,
) -> Result<Option<Dig>, NoMemory>
    requires spelled { IsOp op.now }
    requires keeps { KeepsAuthor (list_view list.now) op.now.author (change_of op.now.kind) }
    ensures { IfOk result (λ after. after ≡ option_map (digest_of D.digest_of)
        (changed (list_view list.now) op.now.author (op.now.seq + 1) (change_of op.now.kind))) }
{
    let list = copy(alloc, list)?;
    match apply(alloc, list, op.author, op.seq + 1, change_of(&op.kind)) {
        Ok(after) => Ok(Some(digest::<D>(&after))),
        Err(DictEnd::Hid) => Ok(None),
        Err(DictEnd::NoMemory) => Err(NoMemory),
    }
}

/// Whether the root of a version is this one, where there is such a version.
pub(crate) fn is_root(version: Option<Dig>, root: &Dig) -> bool
    ensures { result ≡ is_root version root.now }
{
    match version {
        None => false,
        Some(digest) => digest == *root,
    }
}

/// Whether an embedded view is one of this history, or is of nothing.
fn is_seen<D: Digester>(known: &Known, tree: &DigestedTree<D>, view: &View) -> bool
    ensures { result ≡ is_seen (at D.digest_of tree.now.tree tree.now.size) (is_view_signed known.now.server) view.now }
{
    view.size == 0
        || (is_root(tree.digest_at(view.size), &view.root) && is_view_signed(&known.server, view))
}

/// Whether this is the epoch that an operation leaves.
fn is_epoch_after(before: u64, op: &Op, epoch: u64) -> bool
    ensures { result ≡ nat_eq epoch (epoch_after before op.now) }
{
    if op.kind.is_change() {
        epoch > 0 && epoch - 1 == before
    } else {
        epoch == before
    }
}

/// What stands in the way at a position where the law doesn't.
#[tactic(auto, unfolding(crate::specs::Finding::refusal_behind))]
fn refusal_behind<D: Digester>(
    alloc: Global,
    known: &Known,
    tree: &DigestedTree<D>,
    before: &Told,
    leaf: &Leaf,
    list: &PrunedDict,
) -> Result<Option<PositionRefusal>, NoMemory>
    requires spelled { IsOp leaf.now.op }
    requires keeps { KeepsAuthor (list_view list.now) leaf.now.op.author (change_of leaf.now.op.kind) }
    ensures { IfOk result (λ r. r ≡ refusal_behind (told_view before.now) leaf.now
        (finding D.digest_of known.now tree.now.tree tree.now.size (list_view list.now) leaf.now)) }
{
    let Some(after) = after_digest::<D>(alloc, list, &leaf.op)? else {
        return Ok(Some(PositionRefusal::BadDictProof));
    };
    if !is_seen::<D>(known, tree, &leaf.op.view) {
        return Ok(Some(PositionRefusal::BadView));
    }
    if leaf.after != after || !is_epoch_after(before.epoch, &leaf.op, leaf.epoch) {
        return Ok(Some(PositionRefusal::WrongAfter));
    }
    Ok(None)
}

/// Whether the digest of a list is the one that was told.
fn is_told<D: Digester>(told: &Told, list: &PrunedDict) -> bool
    ensures { result ≡ bytes_eq (digest_of D.digest_of (list_view list.now)) told.now.list }
{
    digest::<D>(list) == told.list
}

/// What stands in the way of the leaf at position `k`, where this was told before it and this list is shown.
fn position_refusal<D: Digester>(
    alloc: Global,
    known: &Known,
    tree: &DigestedTree<D>,
    before: &Told,
    k: u64,
    leaf: &Leaf,
    list: &PrunedDict,
) -> Result<Option<PositionRefusal>, NoMemory>
    requires { IsOp leaf.now.op }
    ensures { IfOk result (λ r. r ≡ position_refusal (told_view before.now) known.now.wall k leaf.now
        (finding D.digest_of known.now tree.now.tree tree.now.size (list_view list.now) leaf.now)) }
{
    if !is_author_signed(alloc, &known.users, &leaf.op)? {
        return Ok(Some(PositionRefusal::BadAuthorSignature));
    }
    if !is_told::<D>(before, list) {
        return Ok(Some(PositionRefusal::BadDictProof));
    }
    let Some(author) = looked(list, leaf.op.author) else {
        return Ok(Some(PositionRefusal::BadDictProof));
    };
    let Some(changed) = looked_changed(list, &leaf.op.kind) else {
        return Ok(Some(PositionRefusal::BadDictProof));
    };
    match judge_found(&author, &changed, before.epoch, known.wall, k, &leaf.op) {
        Err(refusal) => Ok(Some(PositionRefusal::Unlawful(refusal))),
        Ok(()) => refusal_behind::<D>(alloc, known, tree, before, leaf, list),
    }
}

fn law_verdict(k: u64, refusal: LawRefusal) -> Verdict
    ensures { result ≡ law_verdict k refusal }
{
    match refusal {
        LawRefusal::WrongWall => Verdict::WrongWall,
        LawRefusal::NotAllowed => Verdict::NotAllowed { at: k },
        LawRefusal::StaleEpoch { now } => Verdict::StaleEpoch { at: k, now },
        LawRefusal::Replayed { next } => Verdict::Replayed { at: k, next },
        LawRefusal::BadChange => Verdict::BadChange { at: k },
        LawRefusal::LateView => Verdict::LateView { at: k },
    }
}

fn verdict_at(k: u64, refusal: PositionRefusal) -> Verdict
    ensures { result ≡ verdict_at k refusal }
{
    match refusal {
        PositionRefusal::BadAuthorSignature => Verdict::BadAuthorSignature { at: k },
        PositionRefusal::BadDictProof => Verdict::BadDictProof { at: k },
        PositionRefusal::Unlawful(refusal) => law_verdict(k, refusal),
        PositionRefusal::BadView => Verdict::BadView { at: k },
        PositionRefusal::WrongAfter => Verdict::WrongAfter { at: k },
    }
}

/// The verdict at position `k`.
fn position_verdict<D: Digester>(
    alloc: Global,
    known: &Known,
    tree: &DigestedTree<D>,
    before: &Told,
    k: u64,
    leaf: &Leaf,
    list: &PrunedDict,
) -> Result<Option<Verdict>, NoMemory>
    requires { IsOp leaf.now.op }
    ensures { IfOk result (λ v. v ≡ position_verdict D.digest_of known.now tree.now.tree tree.now.size
        (told_view before.now) k leaf.now (list_view list.now)) }
{
    match position_refusal::<D>(alloc, known, tree, before, k, leaf, list)? {
        None => Ok(None),
        Some(refusal) => Ok(Some(verdict_at(k, refusal))),
    }
}

/// The first verdict at the positions from `from` on, each with its list and with what the leaf in front of it tells.
pub(crate) fn positions_verdict<D: Digester>(
    alloc: Global,
    known: &Known,
    tree: &DigestedTree<D>,
    first: Told,
    from: u64,
    leaves: &[Leaf],
    lists: &[PrunedDict],
) -> Result<Option<Verdict>, NoMemory>
    requires spelled { AllByRecursion IsLeaf leaves.now }
    requires fits { from + length leaves.now < 2 ^ 64 }
    ensures { IfOk result (λ v. v ≡ positions_verdict D.digest_of known.now tree.now.tree tree.now.size
        (told_view first) from leaves.now (map list_view lists.now)) }
{
    let mut before = first;
    for (i, leaf) in leaves.iter().enumerate() {
        if i >= lists.len() {
            return Ok(None);
        }
        let list = &lists[i];
        let verdict = position_verdict::<D>(
            alloc,
            known,
            tree,
            &before,
            from + i as u64,
            leaf,
            list,
        )?;
        if verdict.is_some() {
            return Ok(verdict);
        }
        before = told_by(leaf);
    }
    Ok(None)
}
