ghost use Rattle.std.specs.Prelude.{◌≡◌, length, IfOk, OnOk};
ghost use Rattle.std.specs.List.{All};
ghost use Rattle.hall_server.specs.Seating.{AreAll, IsSeatsOf};

use crate::walls::{empty, user_signers};
use fr_digest::{Digester, Sha, Short};
use hall_core::{Answer, Called, Hall};
use hall_server::{Seats, Server};
use std::alloc::Global;
use std::process::Abort;
use std::sync::Wait;
use std::test::Fail;

const USERS: [u32; 2] = [1, 2];

/// A server of one wall without leaves, and the seats of two users.
fn opened<D: Digester>(alloc: Global) -> Result<(Server<D>, Vec<Seats<D>>), Fail>
    ensures seats { IfOk result (λ r. All (IsSeatsOf D.digest_of r.0) r.1.items) }
    ensures all { IfOk result (λ r. AreAll r.0 r.1.items) }
    ensures many { IfOk result (λ r. length r.1.items ≡ 2) }
{
    let signers = user_signers(alloc, 5)?;
    let (hall, _server) = empty::<D>(alloc, &signers)?;
    let mut halls = Vec::new(alloc);
    halls.push(hall)?;
    Ok(Server::make(halls, USERS.as_slice())?)
}

/// What the second user is replied, by the format, when nothing is on wall 1: requests that can't be read, of a wall
/// that isn't there, with bytes that aren't an operation, for the changes of no positions, of more than there are, and
/// for the wall.
const REPLIES: [(&[u8], &[u8]); 8] = [
    (b"\xff", b"\x12\0\0\0\0\x0a\0\0\0\0\0\0\0\0"),
    (b"", b"\x12\0\0\0\0\x0a\0\0\0\0\0\0\0\0"),
    (
        b"\x01\0\0\0\x09\0\0\0\0\0\0\0\0\0",
        b"\x12\0\0\0\x09\x01\0\0\0\0\0\0\0\0",
    ),
    (
        b"\x02\0\0\0\x09\0\0\0\0\0\0\0\0\0\0\0\x01\xff",
        b"\x12\0\0\0\x09\x01\0\0\0\0\0\0\0\0",
    ),
    (
        b"\x02\0\0\0\x01\0\0\0\0\0\0\0\0\0\0\0\x01\xff",
        b"\x12\0\0\0\x01\x0a\0\0\0\0\0\0\0\0",
    ),
    (
        b"\x03\0\0\0\x01\0\0\0\0\0\0\0\0",
        b"\x12\0\0\0\x01\x0a\0\0\0\0\0\0\0\0",
    ),
    (
        b"\x03\0\0\0\x01\0\0\0\0\0\0\0\x01",
        b"\x12\0\0\0\x01\x0a\0\0\0\0\0\0\0\0",
    ),
    (
        b"\x01\0\0\0\x01\0\0\0\0\0\0\0\0\0",
        b"\x11\0\0\0\x01\0\0\0\0\0\0\0\0\0\0\0\0\0\0\0\0",
    ),
];

/// Whether the replies are those.
fn replies<D: Digester, R: Wait + Abort>(
    rt: &R,
    server: &Server<D>,
    seats: &mut Seats<D>,
) -> Result<(), Fail>
    requires { IsSeatsOf D.digest_of server.now seats.old }
    ensures { OnOk result (IsSeatsOf D.digest_of server.now seats.new) }
{
    for (request, reply) in REPLIES {
        let found = server.answer(rt, seats, request)?;
        assert!(rt; found.as_slice() == reply);
    }
    Ok(())
}

/// The most entries that are counted.
const MOST: u64 = 1_000;

fn is_look(called: &Called, user: u32) -> bool {
    called.caller == user && called.answer == (Answer::Looked { size: 0 })
}

/// How many entries there are, where all are a user's looks at nothing.
fn looks<D: Digester>(hall: &Hall<D>, user: u32) -> u64 {
    for count in 0..MOST {
        match hall.entry(count) {
            None => return count,
            Some(called) => {
                if !is_look(called, user) {
                    return MOST;
                }
            }
        }
    }
    MOST
}

/// The halls of a server whose second user sent the requests and met the first.
fn answered<D: Digester, R: Wait + Abort>(rt: &R, alloc: Global) -> Result<Vec<Hall<D>>, Fail> {
    let (server, mut all) = opened::<D>(alloc)?;
    replies(rt, &server, &mut all[1])?;
    server.meet_all(&mut all)?;
    Ok(server.close(all)?)
}

/// How many looks a user made at the wall, where there is one.
fn looks_in<D: Digester>(mut halls: Vec<Hall<D>>, user: u32) -> u64 {
    match halls.pop() {
        Some(hall) => looks(&hall, user),
        None => 0,
    }
}

// Three of the requests make a turn: for changes, and for the wall.
#[test]
fn requests_are_answered(rt: HostRuntime) -> Result<(), Fail> {
    assert_eq!(rt;
        looks_in(answered::<Sha, HostRuntime>(&rt, rt.alloc())?, 2),
        3
    );
    assert_eq!(rt;
        looks_in(answered::<Short, HostRuntime>(&rt, rt.alloc())?, 2),
        3
    );
    Ok(())
}
