use crate::held::Held;
use crate::lanes::{SERVER, Two, alone, four, run, waiting};
use crate::outcomes::{all_are_entries, ends, last_reply, only_end};
use crate::todo::{Plan, TEXT};
use fr_bytes::Bytes;
use fr_digest::Sha;
use msg_form::Verdict;
use script_form::CommandEnd;
use session_run::Lane;
use std::alloc::Global;
use std::sync::Wait;
use std::test::Fail;
use std::thread::Threads;

/// How the only command of a session ended, and how many faults its wire counted.
type End = (Option<CommandEnd>, u64);

const SAME: End = (Some(CommandEnd::Same { size: 0 }), 0);

const LOST: End = (Some(CommandEnd::Lost), 1);

// ---- sessions at once

fn end_of(lane: &Lane<Sha, Held>) -> End {
    (
        only_end(lane.session.outcomes.as_slice()),
        lane.wire.faults(),
    )
}

/// Both sessions are in one phase.
fn at_once<R: Threads + Wait + Sync>(rt: &R, alloc: Global) -> Result<(End, End), Fail> {
    let Two {
        server,
        first,
        second,
    } = waiting(alloc)?;
    let lanes = run(rt, &server, Vec::from_array(alloc, [first, second])?)?;
    match lanes.as_slice() {
        [first, second] => Ok((end_of(first), end_of(second))),
        _ => Err("a lane is missing".into()),
    }
}

/// The second session's phase is behind the first's.
fn in_turn<R: Threads + Wait + Sync>(rt: &R, alloc: Global) -> Result<(End, End), Fail> {
    let Two {
        server,
        first,
        second,
    } = waiting(alloc)?;
    let early = run(rt, &server, Vec::from_array(alloc, [first])?)?;
    let late = run(rt, &server, Vec::from_array(alloc, [second])?)?;
    match (early.as_slice(), late.as_slice()) {
        ([first], [second]) => Ok((end_of(first), end_of(second))),
        _ => Err("a lane is missing".into()),
    }
}

// A wire that waits for the other is met only where both sessions run at once.
#[test]
fn sessions_run_at_once(rt: HostRuntime) -> Result<(), Fail> {
    assert_eq!(rt; at_once(&rt, rt.alloc())?, (SAME, SAME));
    assert_eq!(rt; in_turn(&rt, rt.alloc())?, (LOST, SAME));
    Ok(())
}

// ---- sessions at one wall

/// How often four sessions run at one wall in a test: so many rounds take about 15 of the 60 seconds that a test has.
const ROUNDS: u32 = 50;

/// Whether what four sessions came to is what the wall's entries say. Each `every`th command of the owner's posts, so
/// many in all.
fn agree<R: Threads + Wait + Sync>(
    rt: &R,
    alloc: Global,
    every: usize,
    posts: u64,
) -> Result<bool, Fail> {
    let (halls, told) = four(rt, alloc, every)?;
    match halls.as_slice() {
        [hall] => Ok(all_are_entries(hall, told.as_slice(), posts)),
        _ => Ok(false),
    }
}

/// How many rounds of such sessions agree.
fn agreeing<R: Threads + Wait + Sync>(
    rt: &R,
    alloc: Global,
    every: usize,
    posts: u64,
) -> Result<u32, Fail> {
    let mut count = 0u32;
    for _ in 0..ROUNDS {
        if agree(rt, alloc, every, posts)? {
            count = count.saturating_add(1);
        }
    }
    Ok(count)
}

#[test]
fn outcomes_are_what_the_walls_entries_say_of_two_posts(rt: HostRuntime) -> Result<(), Fail> {
    assert_eq!(rt; agreeing(&rt, rt.alloc(), 25, 2)?, ROUNDS);
    Ok(())
}

#[test]
fn outcomes_are_what_the_walls_entries_say_of_three_posts(rt: HostRuntime) -> Result<(), Fail> {
    assert_eq!(rt; agreeing(&rt, rt.alloc(), 16, 3)?, ROUNDS);
    Ok(())
}

#[test]
fn outcomes_are_what_the_walls_entries_say_of_five_posts(rt: HostRuntime) -> Result<(), Fail> {
    assert_eq!(rt; agreeing(&rt, rt.alloc(), 10, 5)?, ROUNDS);
    Ok(())
}

#[test]
fn outcomes_are_what_the_walls_entries_say_of_seven_posts(rt: HostRuntime) -> Result<(), Fail> {
    assert_eq!(rt; agreeing(&rt, rt.alloc(), 7, 7)?, ROUNDS);
    Ok(())
}

// ---- losses

/// Reads and posts by turns. A post that is lost stands: the read behind it shows it.
const LOSSES: [CommandEnd; 9] = [
    CommandEnd::Same { size: 0 },
    CommandEnd::Accepted { size: 1, from: 0 },
    CommandEnd::Lost,
    CommandEnd::Accepted { size: 2, from: 1 },
    CommandEnd::Same { size: 2 },
    CommandEnd::Lost,
    CommandEnd::Accepted { size: 3, from: 2 },
    CommandEnd::Accepted { size: 4, from: 3 },
    CommandEnd::Lost,
];

/// How the commands end where each third carry is lost.
fn losing<R: Threads + Wait + Sync>(rt: &R, alloc: Global) -> Result<Vec<CommandEnd>, Fail> {
    let plan = Plan {
        many: 9,
        every: 2,
        text: TEXT,
    };
    let fails = Vec::from_array(alloc, [3, 6, 9])?;
    let lane = alone(rt, alloc, SERVER, plan, Vec::new(alloc), fails)?;
    ends(alloc, lane.session.outcomes.as_slice())
}

#[test]
fn the_commands_whose_carry_is_lost_are_lost(rt: HostRuntime) -> Result<(), Fail> {
    let ends = losing(&rt, rt.alloc())?;
    assert_eq!(rt; ends.as_slice(), LOSSES.as_slice());
    Ok(())
}

// ---- replies of another hall

/// What a server with secrets of this byte replies to the owner's first post, of this text.
fn strange<R: Threads + Wait + Sync>(
    rt: &R,
    alloc: Global,
    seed: u8,
    text: &'static [u8],
) -> Result<Bytes, Fail> {
    let plan = Plan {
        many: 1,
        every: 1,
        text,
    };
    let lane = alone(rt, alloc, seed, plan, Vec::new(alloc), Vec::new(alloc))?;
    last_reply(alloc, &lane)
}

/// How commands end of which the third, a read behind a post, is delivered that reply. The fourth posts again.
fn heard<R: Threads + Wait + Sync>(
    rt: &R,
    alloc: Global,
    seed: u8,
    text: &'static [u8],
) -> Result<Vec<CommandEnd>, Fail> {
    let reply = strange(rt, alloc, seed, text)?;
    let plan = Plan {
        many: 4,
        every: 2,
        text: TEXT,
    };
    let replies = Vec::from_array(alloc, [None, None, Some(reply)])?;
    let lane = alone(rt, alloc, SERVER, plan, replies, Vec::new(alloc))?;
    ends(alloc, lane.session.outcomes.as_slice())
}

/// The secret byte of the other server, the text that is posted there, and what the client makes of its reply. The
/// first signs under another key, the second has another history, and the third has the same. None of them changes what
/// the client has accepted.
const STRANGE: [(u8, &[u8], CommandEnd); 3] = [
    (8, TEXT, CommandEnd::Rejected(Verdict::BadServerSignature)),
    (SERVER, b"another", CommandEnd::Rejected(Verdict::Forked)),
    (SERVER, TEXT, CommandEnd::Same { size: 1 }),
];

#[test]
fn replies_of_another_hall_are_rejected(rt: HostRuntime) -> Result<(), Fail> {
    for (seed, text, end) in STRANGE {
        let ends = heard(&rt, rt.alloc(), seed, text)?;
        let behind = [
            CommandEnd::Same { size: 0 },
            CommandEnd::Accepted { size: 1, from: 0 },
            end,
            CommandEnd::Accepted { size: 2, from: 1 },
        ];
        assert!(rt;
            ends.as_slice() == behind.as_slice(),
            "seed {seed} end {end:?}"
        );
    }
    Ok(())
}
