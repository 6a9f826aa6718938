ghost use Rattle.std.specs.Prelude.{◌≡◌, IfOk, Some};
ghost use Rattle.check_core.specs.Reads.{IsRead, keys_view};
ghost use Rattle.check_rules.specs.Shown.{changes_of};
ghost use Rattle.check_rules.specs.Verdict.{keys_judged, keys_judged_heard};
ghost use Rattle.check_core.specs.View.{Answers, result_view};

use crate::keys_news::KeysNews;
use crate::read_tree::ReadTree;
use crate::reading::read_keys;
use check_rules::Known;
use fr_bytes::{NoMemory, ReadRefusal, Sequence};
use fr_digest::Digester;
use hist_proof::DigestedTree;
use msg_form::Verdict;
use op_types::{Changes, Leaf, Op};
use std::alloc::Global;

/// The operations among leaves that change the access list.
fn changes_of(alloc: Global, leaves: Vec<Leaf>) -> Result<Vec<Op>, NoMemory>
    ensures { IfOk result (λ ops. ops.items ≡ changes_of leaves.items) }
{
    let changes: Vec<Op> = leaves
        .into_iter()
        .map(|leaf| leaf.op)
        .filter(|op| op.kind.is_change())
        .collect(alloc)?;
    Ok(changes)
}

/// What is made of the changes that are shown.
#[tactic(auto, unfolding(check_rules::specs::Verdict::keys_verdict))]
fn judge_changes<D: Digester>(
    alloc: Global,
    known: &Known,
    news: KeysNews,
) -> Result<Result<Changes, Verdict>, NoMemory>
    requires { IsRead news.shown }
    ensures { IfOk result (λ j. result_view (λ x. x) j
        ≡ keys_judged_heard D.digest_of known.now (Some (keys_view news))) }
{
    let KeysNews { wall, size, shown } = news;
    if wall != known.wall {
        return Ok(Err(Verdict::WrongWall));
    }
    if size != known.size {
        return Ok(Err(Verdict::BadShape));
    }
    let ReadTree { tree, leaves } = shown;
    let Some(tree) = DigestedTree::<D>::new(alloc, tree, size)? else {
        return Ok(Err(Verdict::BadShape));
    };
    if tree.digest() != known.root {
        return Ok(Err(Verdict::RootMismatch));
    }
    let changes = changes_of(alloc, leaves)?;
    let found = changes.len() as u64;
    if found != known.epoch {
        return Ok(Err(Verdict::KeysMissing {
            found,
            needed: known.epoch,
        }));
    }
    Ok(Ok(Sequence::of(changes)))
}

/// What is made of the bytes of a reply with changes, if there is memory.
#[tactic(auto, unfolding(check_rules::specs::Verdict::keys_judged))]
fn judge_keys<D: Digester>(
    alloc: Global,
    known: &Known,
    bytes: &[u8],
) -> Result<Result<Changes, Verdict>, NoMemory>
    ensures { IfOk result (λ j. result_view (λ x. x) j ≡ keys_judged D.digest_of known.now bytes.now) }
{
    match read_keys(alloc, bytes) {
        Err(ReadRefusal::NotForm) => Ok(Err(Verdict::Garbled)),
        Err(ReadRefusal::NoMemory) => Err(NoMemory),
        Ok(news) => judge_changes::<D>(alloc, known, news),
    }
}

/// Checks a reply with the changes of an access list, of a history that the client has accepted: the changes, in order.
///
/// # Errors
/// The first that applies of `Garbled`, `WrongWall`, `BadShape`, `RootMismatch` and `KeysMissing`; `NoMemory`.
pub fn check_keys<D: Digester>(
    alloc: Global,
    known: &Known,
    bytes: &[u8],
) -> Result<Changes, Verdict>
    ensures { Answers (λ x. x) result (keys_judged D.digest_of known.now bytes.now) }
{
    match judge_keys::<D>(alloc, known, bytes) {
        Ok(judgement) => judgement,
        Err(_) => Err(Verdict::NoMemory),
    }
}
