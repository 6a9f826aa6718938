//! What sessions' commands came to, beside the entries of a wall.
use crate::lanes::Told;
use fr_bytes::Bytes;
use fr_digest::Sha;
use fr_edges::MemWire;
use hall_core::{Answer, Hall};
use script_form::{CommandEnd, Outcome};
use session_run::Lane;
use std::alloc::Global;
use std::test::Fail;

/// How many commands each session has.
const MANY: usize = 50;

/// How many entries the wall has behind four sessions: one for each command.
const ENTRIES: u64 = 200;

/// How a session's commands ended.
pub fn ends(alloc: Global, outcomes: &[Outcome]) -> Result<Vec<CommandEnd>, Fail> {
    let mut ends = Vec::new(alloc);
    for outcome in outcomes {
        ends.push(outcome.end)?;
    }
    Ok(ends)
}

/// How the only command of a session ended.
pub fn only_end(outcomes: &[Outcome]) -> Option<CommandEnd> {
    match outcomes {
        [outcome] => Some(outcome.end),
        _ => None,
    }
}

/// The reply that the server made of the last request that a lane's wire carried.
pub fn last_reply(alloc: Global, lane: &Lane<Sha, MemWire>) -> Result<Bytes, Fail> {
    match lane.wire.carried().last() {
        Some(carried) => Ok(Bytes::of(Vec::from_slice(alloc, carried.reply.as_slice())?)),
        None => Err("nothing was carried".into()),
    }
}

/// How many leaves a wall had behind a call that it answered so, where it wasn't refused.
fn size_behind(answer: Answer) -> Option<u64> {
    match answer {
        Answer::Looked { size } => Some(size),
        Answer::Placed { position } => Some(position.wrapping_add(1)),
        Answer::Refused { .. } => None,
    }
}

/// How a command ends that finds a wall of this size, where the client knew so much of it. One voucher is enough, and
/// the last post has a view of all before it: so it alone is shown.
fn end_at(known: u64, size: u64) -> CommandEnd {
    if known == size {
        return CommandEnd::Same { size };
    }
    CommandEnd::Accepted {
        size,
        from: size.wrapping_sub(1),
    }
}

/// Whether the entries of a user are those of the user's outcomes, each in its order.
fn are_entries(hall: &Hall<Sha>, user: u32, outcomes: &[Outcome]) -> bool {
    let mut known = 0;
    let mut next = 0usize;
    for place in 0..ENTRIES {
        let Some(called) = hall.entry(place) else {
            return false;
        };
        if called.caller == user {
            let Some(size) = size_behind(called.answer) else {
                return false;
            };
            match outcomes.get(next) {
                Some(outcome) if outcome.end == end_at(known, size) => next = next.wrapping_add(1),
                _ => return false,
            }
            known = size;
        }
    }
    next == outcomes.len()
}

/// Whether the wall has an entry for each command, and behind the last of them so many leaves.
fn is_full(hall: &Hall<Sha>, posts: u64) -> bool {
    match hall.entry(ENTRIES - 1) {
        Some(last) => hall.entry(ENTRIES).is_none() && size_behind(last.answer) == Some(posts),
        None => false,
    }
}

/// Whether each user's outcomes are those of its entries at the wall, which has no others, and on which so many
/// commands posted. There are four users.
pub fn all_are_entries(hall: &Hall<Sha>, told: &[Told], posts: u64) -> bool {
    for (user, list) in told {
        if list.len() != MANY || !are_entries(hall, *user, list.as_slice()) {
            return false;
        }
    }
    told.len() == 4 && is_full(hall, posts)
}
