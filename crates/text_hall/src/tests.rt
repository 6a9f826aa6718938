ghost use Rattle.std.specs.Prelude.{◌≡◌, ◌≢◌, ◌<◌, ℕ, [], length, slice_index, slice_index_or, IfOk, OnOk};
ghost use Rattle.std.specs.List.{All, AllPairs};
ghost use Rattle.hall_gate.specs.Seats.{caller_of, callers_of, IsSeatOf};

mod history;
mod yielding;

use super::{Numbers, Reply, Slip, TextHall, answer, opened, write_all};
use fr_bytes::{Bytes, NoMemory, put_bytes};
use fr_digest::{Dig, Digester, Sha, Short};
use hall_gate::{Calls, Gate, GateSeat, Room};
use history::{calls_of, counted, root_told};
use std::alloc::Global;
use std::sync::Wait;
use std::test::Fail;
use std::thread::Threads;
use yielding::Yielding;

const TURNS: u32 = 250;

const OWNER: u32 = 9;

const FIRST_ROUND: Numbers = Numbers {
    first: 0,
    many: TURNS,
    padding: 0,
};

const SECOND_ROUND: Numbers = Numbers {
    first: TURNS,
    many: TURNS,
    padding: 0,
};

// The first meets the last.
fn meet_ends<D: Digester>(
    gate: &Gate<TextHall<D>>,
    callers: &[u32],
    seats: &mut Vec<GateSeat<TextHall<D>>>,
) -> Result<(), NoMemory>
    requires seats { All (IsSeatOf gate.now) seats.old.items }
    requires callers { (1 < length seats.old.items) × (length seats.old.items ≡ length callers.now)
        × ((i : ℕ) (d : _) → i < length seats.old.items
        → caller_of (slice_index_or seats.old.items i d) ≡ slice_index callers.now i) }
    ensures seats { OnOk result (All (IsSeatOf gate.now) seats.new.items
        × (length seats.new.items ≡ length seats.old.items)) }
    ensures callers { OnOk result ((i : ℕ) (d : _) → i < length seats.new.items
        → caller_of (slice_index_or seats.new.items i d) ≡ slice_index callers.now i) }
{
    let Some(mut last) = seats.pop() else {
        unreachable!()
    };
    gate.meet(&mut seats[0], &mut last)?;
    seats.push_reserved(last);
    Ok(())
}

// Whether the calls of a hall are one history: each was told the root up to it, the last root is the
// hall's, and each caller wrote so many numbers in order.
fn is_one_history<D: Digester>(
    alloc: Global,
    hall: TextHall<D>,
    callers: &[u32],
    turns: u32,
) -> Result<bool, NoMemory> {
    let root = hall.root();
    let calls = calls_of(alloc, hall)?;
    let all = calls.len() == (turns as usize).wrapping_mul(callers.len());
    let each = callers
        .iter()
        .all(|caller| counted(&calls, *caller) == turns);
    Ok(all && each && root_told::<D>(&calls) == Some(root))
}

// All callers make their turns, the first meets the last, and all make their turns again.
fn two_rounds<D: Digester + Send + Sync, R: Threads + Wait + Sync>(
    rt: &R,
    alloc: Global,
    callers: &[u32],
) -> Result<bool, NoMemory>
    requires some { 1 < length callers.now }
    requires apart { AllPairs (λ c d. c ≢ d) callers.now }
{
    let (gate, mut seats) = opened(alloc, TextHall::<D>::new(OWNER, false), callers)?;
    write_all(rt, alloc, &gate, callers, FIRST_ROUND, seats.as_mut_slice());
    meet_ends(&gate, callers, &mut seats)?;
    write_all(
        rt,
        alloc,
        &gate,
        callers,
        SECOND_ROUND,
        seats.as_mut_slice(),
    );
    is_one_history(alloc, gate.close(seats), callers, 2 * TURNS)
}

#[test]
fn callers_at_once_make_one_history(rt: HostRuntime) -> Result<(), Fail> {
    let two = [7, 5];
    let four = [3, 1, 4, 2];
    assert!(rt; two_rounds::<Yielding<Sha>, HostRuntime>(&rt, rt.alloc(), two.as_slice())?);
    assert!(rt; two_rounds::<Yielding<Short>, HostRuntime>(&rt, rt.alloc(), four.as_slice())?);
    Ok(())
}

// The answer to one text, and what is shown then.
fn written<R: Wait>(
    rt: &R,
    alloc: Global,
    starved: bool,
    caller: u32,
    text: &[u8],
) -> Result<(Reply, Result<Dig, NoMemory>), NoMemory> {
    let mut bytes = Vec::new(alloc);
    put_bytes(&mut bytes, text)?;
    let slip = Slip::new(alloc, caller, Bytes::of(bytes))?;
    let (gate, mut seats) = opened(
        alloc,
        TextHall::<Sha>::new(OWNER, starved),
        [caller].as_slice(),
    )?;
    let told = answer(rt, &gate, &mut seats[0], slip);
    drop(gate.close(seats));
    Ok(told)
}

// The digest of nothing, and the roots of one empty text and of the one text `a`: by another program.
const NOTHING: Dig = *b"\xe3\xb0\xc4\x42\x98\xfc\x1c\x14\x9a\xfb\xf4\xc8\x99\x6f\xb9\x24\
    \x27\xae\x41\xe4\x64\x9b\x93\x4c\xa4\x95\x99\x1b\x78\x52\xb8\x55";

const EMPTY: Dig = *b"\xe1\x2b\xfa\xea\x7a\x08\x60\x8e\xcb\x28\x62\x2a\x85\x00\xfd\x7b\
    \x18\x88\x3d\x04\x83\x51\x13\x78\x25\xca\x51\xa6\x92\xb7\x40\x3e";

const LETTER: Dig = *b"\xf3\x70\x2f\xaa\x9f\x1e\x65\x2a\xd4\xa9\x66\x19\xf5\x03\x94\xe7\
    \x76\x6f\x9c\x74\xf4\x3f\x5f\xb4\x11\x67\x94\xf4\xa1\xe4\x67\xf3";

// An empty text is the owner's alone. Where showing the wall wants memory, the turn is made all the same.
#[test]
fn one_caller_is_answered_and_shown(rt: HostRuntime) -> Result<(), Fail> {
    for (starved, caller, text, reply, shown) in [
        (false, OWNER, "", Reply::Placed(EMPTY), Ok(EMPTY)),
        (false, 8, "", Reply::Refused, Ok(NOTHING)),
        (false, 8, "a", Reply::Placed(LETTER), Ok(LETTER)),
        (true, 8, "a", Reply::Placed(LETTER), Err(NoMemory)),
    ] {
        let told = written(&rt, rt.alloc(), starved, caller, text.as_bytes())?;
        assert!(rt; told == (reply, shown), "caller {caller} text {text}");
    }
    Ok(())
}

// A derived drop would need stack for each of them.
#[test]
fn many_calls_are_dropped(rt: HostRuntime) -> Result<(), Fail> {
    let mut calls = Calls::new();
    for number in 0..100_000u32 {
        calls.add(number, Room::new(rt.alloc())?);
    }
    drop(calls);
    Ok(())
}
