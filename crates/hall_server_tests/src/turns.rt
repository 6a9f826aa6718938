//! A gate round a wall without leaves, at which one of two callers looks.
ghost use Rattle.std.specs.Prelude.{◌≡◌, [], ◌∷◌, length, map, IfOk};
ghost use Rattle.std.specs.List.{All};
ghost use Rattle.fr_bytes.specs.History.{Begins, own};
ghost use Rattle.hall_gate.specs.Seats.{caller_of, callers_of, front_of, IsSeatOf};
ghost use Rattle.hall_core.specs.declared.ask.Ask.TheVariants.{Look};
ghost use Rattle.hall_core.specs.declared.ask.Called.{Called};
ghost use Rattle.hall_core.specs.Calls as calls;

use crate::walls::{empty, user_signers};
use fr_digest::{Digester, Sha, Short};
use hall_core::laws::kept;
use hall_core::{Answer, Ask, Called, Hall, Slip};
use hall_gate::{Gate, GateSeat};
use hall_server::TurnedHall;
use std::alloc::Global;
use std::sync::Wait;
use std::test::Fail;

type HallGate<D> = Gate<TurnedHall<D>>;

type HallSeat<D> = GateSeat<TurnedHall<D>>;

/// The one that looks, and the one that only meets it.
const CALLERS: [u32; 2] = [1, 2];

/// The gate, and each caller's seat.
fn gated<D: Digester>(alloc: Global) -> Result<(HallGate<D>, HallSeat<D>, HallSeat<D>), Fail>
    ensures callers { IfOk result (λ r. callers_of r.0 ≡ 1 ∷ 2 ∷ []) }
    ensures first { IfOk result (λ r. IsSeatOf r.0 r.1 × (caller_of r.1 ≡ 1) × (front_of r.1 ≡ [])) }
    ensures second { IfOk result (λ r. IsSeatOf r.0 r.2 × (caller_of r.2 ≡ 2) × (front_of r.2 ≡ [])) }
{
    let signers = user_signers(alloc, 5)?;
    let (hall, _server) = empty::<D>(alloc, &signers)?;
    kept(&hall);
    let Ok((gate, mut seats)) = Gate::make(alloc, TurnedHall::new(hall), CALLERS.as_slice()) else {
        return Err("no gate was made".into());
    };
    let Some(second) = seats.pop() else {
        unreachable!()
    };
    let Some(first) = seats.pop() else {
        unreachable!()
    };
    Ok((gate, first, second))
}

fn look(alloc: Global) -> Result<Slip, Fail>
    ensures { IfOk result (λ slip. slip ≡ record { caller = 1; ask = Look }) }
{
    match Slip::new(alloc, CALLERS[0], Ask::Look) {
        Ok(slip) => Ok(slip),
        Err(_) => Err("no slip was made".into()),
    }
}

/// What the first caller is told when it looks, and how large the wall is that it is shown. Its front has then the one
/// entry of its own.
fn looked<D: Digester, R: Wait>(
    rt: &R,
    alloc: Global,
    gate: &HallGate<D>,
    seat: &mut HallSeat<D>,
) -> Result<(Answer, u64), Fail>
    requires seat { IsSeatOf gate.now seat.old }
    requires caller { caller_of seat.old ≡ 1 }
    requires fresh { front_of seat.old ≡ [] }
    ensures seat { IfOk result (λ _. IsSeatOf gate.now seat.new) }
    ensures front { IfOk result (λ r. own calls.caller_of 1 (front_of seat.new)
        ≡ (record { caller = 1; ask = Look; answer = r.0 }) ∷ []) }
{
    let (answer, shown) = gate.turn(rt, seat, look(alloc)?);
    Ok((answer, shown?.size()))
}

/// What is told to the first caller, and the hall of a closed gate.
#[derive(Drop)]
struct Outcome<D: Digester> {
    answer: Answer,
    shown: u64,
    hall: Hall<D>,
}

/// The first caller looks, the callers meet, and the gate is closed.
fn played<D: Digester, R: Wait>(rt: &R, alloc: Global) -> Result<Outcome<D>, Fail> {
    let (gate, mut first, mut second) = gated::<D>(alloc)?;
    let mut seats = Vec::with_capacity(alloc, CALLERS.len())?;
    let (answer, shown) = looked(rt, alloc, &gate, &mut first)?;
    gate.meet(&mut first, &mut second)?;
    seats.push_reserved(first);
    seats.push_reserved(second);
    Ok(Outcome {
        answer,
        shown,
        hall: gate.close(seats).into_hall(),
    })
}

/// What a look at a wall without leaves is told.
const NOTHING: Answer = Answer::Looked { size: 0 };

fn is_look(called: &Called) -> bool {
    matches!(called.ask, Ask::Look) && called.caller == CALLERS[0] && called.answer == NOTHING
}

/// How many entries there are, where each is that look.
fn looks<D: Digester>(hall: &Hall<D>) -> Option<u64> {
    for place in 0..u64::MAX {
        match hall.entry(place) {
            None => return Some(place),
            Some(called) if is_look(called) => {}
            Some(_) => return None,
        }
    }
    None
}

#[test]
fn one_callers_look_is_the_one_entry(rt: HostRuntime) -> Result<(), Fail> {
    let sha = played::<Sha, _>(&rt, rt.alloc())?;
    assert_eq!(rt;
        (sha.answer, sha.shown, looks(&sha.hall)),
        (NOTHING, 0, Some(1))
    );
    let short = played::<Short, _>(&rt, rt.alloc())?;
    assert_eq!(rt;
        (short.answer, short.shown, looks(&short.hall)),
        (NOTHING, 0, Some(1))
    );
    Ok(())
}
