ghost use Rattle.std.specs.Prelude.{◌≡◌, ◌∷◌, [], length, IfOk, OnOk};
ghost use Rattle.std.specs.List.{All};
ghost use Rattle.hall_gate.specs.Seats.{caller_of, callers_of, IsSeatOf};
ghost use Rattle.gate_users.specs.Users.{SitsAt, HasPlacesFor};

use super::{Seats, close_users, meet_users};
use fr_bytes::{Bytes, NoMemory, put_bytes};
use fr_digest::{Dig, Sha};
use hall_gate::{Gate, GateSeat};
use std::alloc::Global;
use std::sync::Wait;
use std::test::Fail;
use text_hall::{Slip, TextHall, answer, opened};

type Hall = TextHall<Sha>;

const OWNER: u32 = 9;

const CALLERS: [u32; 2] = [7, 5];

// A caller writes a text.
fn write<R: Wait>(
    rt: &R,
    alloc: Global,
    gate: &Gate<Hall>,
    seat: &mut GateSeat<Hall>,
    caller: u32,
    text: &str,
) -> Result<(), NoMemory>
    requires seat { IsSeatOf gate.now seat.old }
    requires caller { caller_of seat.old ≡ caller }
    ensures { OnOk result (IsSeatOf gate.now seat.new) }
{
    let mut bytes = Vec::new(alloc);
    put_bytes(&mut bytes, text.as_bytes())?;
    let slip = Slip::new(alloc, caller, Bytes::of(bytes))?;
    let (_reply, _root) = answer(rt, gate, seat, slip);
    Ok(())
}

// A gate round a new hall, at which each caller has written its text.
fn written<R: Wait>(
    rt: &R,
    alloc: Global,
    texts: (&str, &str),
) -> Result<(Gate<Hall>, Vec<GateSeat<Hall>>), NoMemory>
    ensures callers { IfOk result (λ r. (length (callers_of r.0) ≡ 2) × (length r.1.items ≡ 2)) }
    ensures seats { IfOk result (λ r. All (IsSeatOf r.0) r.1.items) }
{
    let (gate, mut seats) = opened(alloc, TextHall::new(OWNER, false), CALLERS.as_slice())?;
    write(rt, alloc, &gate, &mut seats[0], CALLERS[0], texts.0)?;
    write(rt, alloc, &gate, &mut seats[1], CALLERS[1], texts.1)?;
    Ok((gate, seats))
}

// A user's seats at two gates.
fn seated(
    alloc: Global,
    first: GateSeat<Hall>,
    second: GateSeat<Hall>,
) -> Result<Seats<Hall>, NoMemory>
    ensures { IfOk result (λ user. user.seats.items ≡ first ∷ second ∷ []) }
{
    let mut seats = Vec::with_capacity(alloc, 2)?;
    seats.push_reserved(first);
    seats.push_reserved(second);
    Ok(Seats { seats })
}

// Users, each with a seat at both gates.
fn paired(
    alloc: Global,
    first: &Gate<Hall>,
    second: &Gate<Hall>,
    mut at_first: Vec<GateSeat<Hall>>,
    mut at_second: Vec<GateSeat<Hall>>,
) -> Result<Vec<Seats<Hall>>, NoMemory>
    requires first { All (IsSeatOf first.now) at_first.items }
    requires second { All (IsSeatOf second.now) at_second.items }
    requires many { length at_first.items ≡ length at_second.items }
    ensures many { IfOk result (λ users. length users.items ≡ length at_first.items) }
    ensures seats { IfOk result (λ users. All (SitsAt (first.now ∷ second.now ∷ [])) users.items) }
{
    let mut users = Vec::new(alloc);
    while let Some(one) = at_first.pop() {
        let Some(other) = at_second.pop() else {
            unreachable!()
        };
        users.push(seated(alloc, one, other)?)?;
    }
    Ok(users)
}

// Two users write at two gates, meet, and close them.
fn closed<R: Wait>(
    rt: &R,
    alloc: Global,
    firsts: (&str, &str),
    seconds: (&str, &str),
) -> Result<Vec<Hall>, NoMemory> {
    let (first, at_first) = written(rt, alloc, firsts)?;
    let (second, at_second) = written(rt, alloc, seconds)?;
    let mut users = paired(alloc, &first, &second, at_first, at_second)?;
    let mut gates = Vec::with_capacity(alloc, 2)?;
    gates.push_reserved(first);
    gates.push_reserved(second);
    meet_users(gates.as_slice(), &mut users);
    close_users(alloc, gates, users)
}

// Whether there is a hall with this root, and the calls of all callers in their order.
fn is_wall(hall: Option<Hall>, root: Dig) -> bool {
    let Some(hall) = hall else {
        return false;
    };
    let same = hall.root() == root;
    let mut calls = hall.into_calls();
    for caller in CALLERS.iter().rev() {
        let Some(call) = calls.pop() else {
            return false;
        };
        if call.caller != *caller {
            return false;
        }
    }
    same && calls.pop().is_none()
}

// Whether there are two halls, with these roots.
fn are_walls(mut halls: Vec<Hall>, first: Dig, second: Dig) -> bool {
    let last = halls.pop();
    is_wall(halls.pop(), first) && is_wall(last, second) && halls.is_empty()
}

// The roots of the texts `a` and `b`, and of `c` and `d`: by another program.
const AB: Dig = *b"\x44\x7c\x13\x49\xdf\x5f\x5a\x1e\xcd\xa6\xc2\xfd\x9b\x67\x94\x9d\
    \xed\xdc\xbb\x95\x44\x4a\x81\x78\xa5\xf0\xf1\x41\x2c\x47\x7a\xd2";

const CD: Dig = *b"\xeb\xa3\x7b\x9e\x72\x26\x3e\x22\x41\x91\xaa\xf1\x52\x87\x12\x61\
    \xc8\xdc\xc2\x45\x28\x3b\x06\xb8\x25\xf2\x22\x04\xe9\xf2\x31\x5b";

// The values come back in the gates' order, each with its callers' calls in theirs.
#[test]
fn two_users_meet_and_close_two_gates(rt: HostRuntime) -> Result<(), Fail> {
    for (firsts, seconds, first, second) in [
        (("a", "b"), ("c", "d"), AB, CD),
        (("c", "d"), ("a", "b"), CD, AB),
    ] {
        let halls = closed(&rt, rt.alloc(), firsts, seconds)?;
        assert!(rt; are_walls(halls, first, second));
    }
    Ok(())
}
