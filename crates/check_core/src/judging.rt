ghost use Rattle.std.specs.Prelude.{◌≡◌, ◌<◌, ◌≤◌, ◌+◌, ◌^◌, ◌||◌, IfOk, length, map, true, false};
ghost use Rattle.std.specs.List.{AllByRecursion, list_any};
ghost use Rattle.std.specs.Prelude.{ℕ, List};
ghost use Rattle.fr_digest.specs.Digest.{Digest};
ghost use Rattle.hist_proof.specs.Pruned.{Tree};
ghost use Rattle.pruned_list.specs.PrunedList.{PrunedList};
ghost use Rattle.op_types.specs.Spelling.{IsLeaf, IsOp, op_text};
ghost use Rattle.std.specs.Str.{bytes_eq};
ghost use Rattle.hist_proof.specs.Pruned.{fits};
ghost use Rattle.hist_proof.specs.View.{tree_view};
ghost use Rattle.dict_proof.specs.View.{list_view};
ghost use Rattle.check_rules.specs.Heard.{holds_leaves, heard_of};
ghost use Rattle.check_rules.specs.Shown.{leaves_among, leaves_from, leaves_in};
ghost use Rattle.check_core.specs.Reads.{IsHeard, IsNews, heard_view};
ghost use Rattle.check_rules.specs.Verdict.{early_verdict, holds, is_answered, is_append, is_other_wall, judged, judged_bare, judged_heard, judged_later, judged_news, judged_refusal, nothing_new, shows_other_wall};
ghost use Rattle.check_core.specs.View.{Answers, checked_view, result_view};

use crate::checked::Checked;
use crate::heard::{Heard, News};
use crate::read_tree::ReadTree;
use crate::reading::read_heard;
use crate::rows::{early_verdict, is_bad_from, is_same_size, late_verdict};
use crate::shown::split_leaves;
use check_rules::{Asked, Known};
use dict_proof::Dicts;
use fr_bytes::{NoMemory, ReadRefusal, Sequence};
use fr_digest::Digester;
use hist_proof::DigestedTree;
use msg_form::Verdict;
use op_types::{Leaf, Op, View, write_op};
use std::alloc::Global;

/// What is made of a reply, if there is memory.
type Judgement = Result<Checked, Verdict>;

fn is_other_wall(known: &Known, wall: u32) -> bool
    ensures { result ≡ is_other_wall known.now wall }
{
    wall != known.wall
}

/// Whether one of these leaves is of another wall.
fn is_any_other(known: &Known, leaves: &[Leaf]) -> bool
    ensures { result ≡ list_any (λ l. is_other_wall known.now l.op.wall) leaves.now }
{
    leaves.iter().any(|leaf| leaf.op.wall != known.wall)
}

/// Whether this wall is another one, or that of one of these leaves.
fn is_any_of_other_wall(known: &Known, wall: u32, leaves: &[Leaf]) -> bool
    ensures { result ≡ (is_other_wall known.now wall || list_any (λ l. is_other_wall known.now l.op.wall) leaves.now) }
{
    is_other_wall(known, wall) || is_any_other(known, leaves)
}

/// Whether these bytes spell the operation.
fn is_spelled(alloc: Global, op: &Op, bytes: &[u8]) -> Result<bool, NoMemory>
    requires { IsOp op.now }
    ensures { IfOk result (λ b. b ≡ bytes_eq (op_text op.now) bytes.now) }
{
    let text = write_op(alloc, op)?;
    Ok(text.as_slice() == bytes)
}

/// Whether one of these leaves holds the operation of these bytes.
fn holds(alloc: Global, leaves: &[Leaf], op: &[u8]) -> Result<bool, NoMemory>
    requires { AllByRecursion IsLeaf leaves.now }
    ensures { IfOk result (λ b. b ≡ holds leaves.now op.now) }
{
    for leaf in leaves {
        if is_spelled(alloc, &leaf.op, op)? {
            return Ok(true);
        }
    }
    Ok(false)
}

/// Whether what was sent, if it was an operation, stands among the leaves.
fn is_answered(alloc: Global, asked: &Asked, leaves: &[Leaf]) -> Result<bool, NoMemory>
    requires { AllByRecursion IsLeaf leaves.now }
    ensures { IfOk result (λ b. b ≡ is_answered asked.now leaves.now) }
{
    match asked {
        Asked::Look => Ok(true),
        Asked::Append { op } => holds(alloc, leaves, op.as_slice()),
    }
}

/// Where the view covers what the client has accepted and no more.
fn nothing_new(asked: &Asked, size: u64) -> Judgement
    ensures { result_view checked_view result ≡ nothing_new asked.now size }
{
    match asked {
        Asked::Look => Ok(Checked::Same { size }),
        Asked::Append { .. } => Err(Verdict::Missing),
    }
}

/// What is made of a view alone.
fn judge_bare(known: &Known, asked: &Asked, view: &View) -> Judgement
    ensures { result_view checked_view result ≡ judged_bare known.now asked.now view.now }
{
    if let Some(verdict) = early_verdict(known, is_other_wall(known, view.wall), view) {
        return Err(verdict);
    }
    if view.size == known.size {
        return nothing_new(asked, view.size);
    }
    Err(Verdict::BadFrom)
}

/// What is made of a tree that isn't one of the view's size.
fn judge_unfitting(known: &Known, asked: &Asked, view: &View, from: u64) -> Judgement
    ensures { (d : Digest) (tree : Tree) (lists : List PrunedList) → fits tree view.now.size ≡ false
        → result_view checked_view result ≡ judged_news d known.now asked.now view.now from tree lists }
{
    if let Some(verdict) = early_verdict(known, is_other_wall(known, view.wall), view) {
        return Err(verdict);
    }
    if is_same_size(known, view) {
        return nothing_new(asked, view.size);
    }
    if is_bad_from(known, view, from) {
        return Err(Verdict::BadFrom);
    }
    Err(Verdict::BadShape)
}

/// What is made of a view that covers more than the client has accepted, and of what is shown of it.
#[tactic(auto, unfolding(check_rules::specs::Verdict::judged_later))]
fn judge_later<D: Digester>(
    alloc: Global,
    known: &Known,
    asked: &Asked,
    view: View,
    from: u64,
    tree: DigestedTree<D>,
    before: &[Leaf],
    leaves: Vec<Leaf>,
    lists: Dicts,
) -> Result<Judgement, NoMemory>
    requires f { known.now.f ≤ 31 }
    requires size { tree.size ≡ view.size }
    requires few { view.size < 2 ^ 32 }
    requires fitting { fits tree.tree tree.size ≡ true }
    requires holds { holds_leaves tree.tree ≡ true }
    requires front { before.now ≡ leaves_among tree.tree tree.size 0 from }
    requires behind { leaves.items ≡ leaves_from tree.tree tree.size from }
    requires before { AllByRecursion IsLeaf before.now }
    requires spelled { AllByRecursion IsLeaf leaves.items }
    requires within { from + length leaves.items ≤ view.size }
    ensures { IfOk result (λ j. result_view checked_view j ≡ judged_later D.digest_of known.now asked.now view
        from tree.tree (map list_view lists)) }
{
    let verdict = late_verdict::<D>(
        alloc,
        known,
        &view,
        from,
        &tree,
        before,
        &leaves,
        lists.as_slice(),
    )?;
    if let Some(verdict) = verdict {
        return Ok(Err(verdict));
    }
    if !is_answered(alloc, asked, &leaves)? {
        return Ok(Err(Verdict::Missing));
    }
    Ok(Ok(Checked::Taken {
        view,
        from,
        proof: tree.into_tree(),
        leaves: Sequence::of(leaves),
        dicts: lists,
    }))
}

/// What is made of a view and of what a tree of its size shows.
#[tactic(auto, unfolding(check_rules::specs::Verdict::judged_news))]
fn judge_fitting<D: Digester>(
    alloc: Global,
    known: &Known,
    asked: &Asked,
    view: View,
    from: u64,
    tree: DigestedTree<D>,
    leaves: Vec<Leaf>,
    lists: Dicts,
) -> Result<Judgement, NoMemory>
    requires f { known.now.f ≤ 31 }
    requires size { tree.size ≡ view.size }
    requires few { view.size ≤ 1024 }
    requires some { from < view.size }
    requires fitting { fits tree.tree tree.size ≡ true }
    requires holds { holds_leaves tree.tree ≡ true }
    requires read { leaves.items ≡ leaves_in tree.tree }
    requires spelled { AllByRecursion IsLeaf leaves.items }
    ensures { IfOk result (λ j. result_view checked_view j ≡ judged_news D.digest_of known.now asked.now view
        from tree.tree (map list_view lists)) }
{
    let mut before = leaves;
    let leaves = split_leaves::<D>(&tree, from, &mut before)?;
    let other_wall = is_any_of_other_wall(known, view.wall, &leaves);
    if let Some(verdict) = early_verdict(known, other_wall, &view) {
        return Ok(Err(verdict));
    }
    if is_same_size(known, &view) {
        return Ok(nothing_new(asked, view.size));
    }
    judge_later::<D>(
        alloc, known, asked, view, from, tree, &before, leaves, lists,
    )
}

/// What is made of a view and of what is shown of it.
fn judge_news<D: Digester>(
    alloc: Global,
    known: &Known,
    asked: &Asked,
    news: News,
) -> Result<Judgement, NoMemory>
    requires f { known.now.f ≤ 31 }
    requires news { IsNews news }
    ensures { IfOk result (λ j. result_view checked_view j ≡ judged_news D.digest_of known.now asked.now news.view
        news.from (tree_view news.shown.tree) (map list_view news.lists)) }
{
    let News {
        view,
        from,
        shown,
        lists,
    } = news;
    let ReadTree { tree, leaves } = shown;
    match DigestedTree::<D>::new(alloc, tree, view.size)? {
        None => Ok(judge_unfitting(known, asked, &view, from)),
        Some(tree) => judge_fitting::<D>(alloc, known, asked, view, from, tree, leaves, lists),
    }
}

fn judge_refusal(known: &Known, wall: u32, cause: u8, number: u64) -> Judgement
    ensures { result_view checked_view result ≡ judged_refusal known.now wall cause number }
{
    if is_other_wall(known, wall) {
        return Err(Verdict::WrongWall);
    }
    Ok(Checked::Refused { cause, number })
}

fn is_append(asked: &Asked) -> bool
    ensures { result ≡ is_append asked.now }
{
    match asked {
        Asked::Look => false,
        Asked::Append { .. } => true,
    }
}

/// What is made of the bytes of a reply, if there is memory.
#[tactic(auto, unfolding(check_rules::specs::Verdict::judged))]
fn judge<D: Digester>(
    alloc: Global,
    known: &Known,
    asked: &Asked,
    bytes: &[u8],
) -> Result<Judgement, NoMemory>
    requires { known.now.f ≤ 31 }
    ensures { IfOk result (λ j. result_view checked_view j ≡ judged D.digest_of known.now asked.now bytes.now) }
{
    match read_heard(alloc, is_append(asked), bytes) {
        Err(ReadRefusal::NotForm) => Ok(Err(Verdict::Garbled)),
        Err(ReadRefusal::NoMemory) => Err(NoMemory),
        Ok(Heard::Bare(view)) => Ok(judge_bare(known, asked, &view)),
        Ok(Heard::News(news)) => judge_news::<D>(alloc, known, asked, news),
        Ok(
            Heard::Refused {
                wall,
                cause,
                number,
            },
        ) => Ok(judge_refusal(known, wall, cause, number)),
    }
}

/// Checks a reply to a look, or to an operation that was sent: what the client that knows this, and asked this, makes
/// of the bytes. Its `known.f` is at most 31.
///
/// # Errors
/// The first verdict that applies, in the order in which [`Verdict`] has them, first over the whole reply, then at each
/// position that is shown from `from` on, and at last `Missing`; `NoMemory`.
///
/// Each leaf is read once, each signature verified once and each part of the tree hashed once.
pub fn check<D: Digester>(
    alloc: Global,
    known: &Known,
    asked: &Asked,
    bytes: &[u8],
) -> Result<Checked, Verdict>
    requires { known.now.f ≤ 31 }
    ensures { Answers checked_view result (judged D.digest_of known.now asked.now bytes.now) }
{
    match judge::<D>(alloc, known, asked, bytes) {
        Ok(judgement) => judgement,
        Err(_) => Err(Verdict::NoMemory),
    }
}
