ghost use Rattle.std.specs.Prelude.{◌≡◌, option_and_then};
ghost use Rattle.tree_model.specs.AccessList.{entry_of};
ghost use Rattle.op_types.specs.Kinds.{changed_user};
ghost use Rattle.wall_law.specs.Law.{may_add, is_owner, next_of, fits_change, is_bad_change, law_of, law, refusal_of};

use crate::refusal::LawRefusal;
use crate::state::State;
use op_types::{Kind, OWNER, Op, may_write};
use tree_model::{Entry, find_entry};

fn may_add(author: &Option<Entry>) -> bool
    ensures { result ≡ may_add author.now }
{
    match author {
        None => false,
        Some(e) => may_write(e.role),
    }
}

fn is_owner(author: &Option<Entry>) -> bool
    ensures { result ≡ is_owner author.now }
{
    match author {
        None => false,
        Some(e) => e.role == OWNER,
    }
}

fn next_of(author: &Option<Entry>) -> u32
    ensures { result ≡ next_of author.now }
{
    match author {
        None => 0,
        Some(e) => e.next,
    }
}

fn fits_change(kind: &Kind, changed: &Option<Entry>) -> bool
    ensures { result ≡ fits_change kind.now changed.now }
{
    match kind {
        Kind::Post { .. } => true,
        Kind::Admit { .. } => match changed {
            None => true,
            Some(_) => false,
        },
        Kind::Remove { .. } => match changed {
            None => false,
            Some(e) => e.role != OWNER,
        },
    }
}

fn is_bad_change(author: &Option<Entry>, changed: &Option<Entry>, kind: &Kind) -> bool
    ensures { result ≡ is_bad_change author.now changed.now kind.now }
{
    kind.is_change() && (!is_owner(author) || !fits_change(kind, changed))
}

/// Judges an operation at position `k` of a wall over the entries that were found of its author and of
/// the user whom it changes: the first refusal that applies. Takes no memory.
#[tactic(auto, unfolding(crate::specs::Law::law_of))]
pub fn judge_found(
    author: &Option<Entry>,
    changed: &Option<Entry>,
    epoch: u64,
    wall: u32,
    k: u64,
    op: &Op,
) -> Result<(), LawRefusal>
    ensures { refusal_of result ≡ law_of author.now changed.now epoch wall k op.now }
{
    if op.wall != wall {
        return Err(LawRefusal::WrongWall);
    }
    if !may_add(author) {
        return Err(LawRefusal::NotAllowed);
    }
    if op.epoch != epoch {
        return Err(LawRefusal::StaleEpoch { now: epoch });
    }
    let next = next_of(author);
    if op.seq < next {
        return Err(LawRefusal::Replayed { next });
    }
    if is_bad_change(author, changed, &op.kind) {
        return Err(LawRefusal::BadChange);
    }
    if k < op.view.size {
        return Err(LawRefusal::LateView);
    }
    Ok(())
}

fn changed_entry(entries: &[Entry], kind: &Kind) -> Option<Entry>
    ensures { result ≡ option_and_then (λ user. entry_of entries.now user) (changed_user kind.now) }
{
    match kind.changed_user() {
        None => None,
        Some(user) => find_entry(entries, user),
    }
}

/// Judges an operation at position `k` of a wall in the state before it: the first refusal that
/// applies, in the order in which [`LawRefusal`] has them. Takes no memory.
#[tactic(auto, unfolding(crate::specs::Law::law))]
pub fn judge_op(state: &State, wall: u32, k: u64, op: &Op) -> Result<(), LawRefusal>
    ensures { refusal_of result ≡ law state.now wall k op.now }
{
    let entries = state.entries.as_slice();
    let author = find_entry(entries, op.author);
    let changed = changed_entry(entries, &op.kind);
    judge_found(&author, &changed, state.epoch, wall, k, op)
}
