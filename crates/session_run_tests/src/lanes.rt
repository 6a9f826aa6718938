//! Lanes of users at a server.
ghost use Rattle.hall_server.specs.Seating.{HasUsers, IsSeatsOf, walls_of};
ghost use Rattle.session_run.specs.Phases.{IsReady};
ghost use Rattle.sha2.specs.Sha256.{sha256};
ghost use Rattle.std.specs.List.{All, Contains};
ghost use Rattle.std.specs.Prelude.{◌≡◌, ◌∷◌, [], IfOk};

use crate::held::Held;
use crate::todo::{Plan, READS, commands};
use crate::walls::{Keys, Opened, Place, client, one_wall, two_walls};
use fr_bytes::{Bytes, Sequence};
use fr_digest::Sha;
use fr_edges::{MemWire, Straight, Wire};
use hall_core::Hall;
use hall_server::{Seats, Server};
use script_form::OutcomeList;
use session_run::{Lane, Session, run_phase};
use std::alloc::Global;
use std::sync::Wait;
use std::test::Fail;
use std::thread::Threads;

/// What a user does on a wall.
#[derive(Clone, Copy)]
pub struct Part {
    pub user: u8,
    pub place: Place,
    pub plan: Plan,
}

/// The wall of user 1.
const FIRST: Place = Place { wall: 1, owner: 1 };

/// The wall of user 2.
const SECOND: Place = Place { wall: 2, owner: 2 };

/// The secret byte of a server.
pub const SERVER: u8 = 9;

/// A lane of a user whose client has done nothing yet.
fn lane<W: Wire>(
    alloc: Global,
    server: &Server<Sha>,
    keys: &Keys,
    seats: Seats<Sha>,
    part: Part,
    wire: W,
) -> Result<Lane<Sha, W>, Fail>
    requires seats { IsSeatsOf sha256 server.now seats }
    requires listed { Contains (walls_of server.now) part.place.wall }
    ensures { IfOk result (IsReady sha256 server.now) }
{
    if seats.user() != u32::from(part.user) {
        return Err("another user's seats".into());
    }
    let client = client(alloc, part.user, part.place, keys)?;
    let commands = commands(alloc, part.place.wall, part.plan)?;
    let session = Session {
        client,
        seats,
        commands,
        outcomes: Sequence::of(Vec::new(alloc)),
    };
    Ok(Lane {
        session,
        wire,
        short: false,
    })
}

/// The lanes, after a phase of them.
pub fn run<W: Wire + Send, R: Threads + Wait + Sync>(
    rt: &R,
    server: &Server<Sha>,
    lanes: Vec<Lane<Sha, W>>,
) -> Result<Vec<Lane<Sha, W>>, Fail>
    requires { All (IsReady sha256 server.now) lanes.items }
    ensures { IfOk result (λ lanes. All (λ lane. IsSeatsOf sha256 server.now lane.session.seats) lanes.items) }
{
    let mut lanes = lanes;
    if lanes.len() > 16 {
        return Err("too many lanes".into());
    }
    run_phase(rt, 1, &mut lanes, server)?;
    Ok(lanes)
}

/// The seats of the next user, who comes before those that were taken.
fn next_seats(server: &Server<Sha>, all: &mut Vec<Seats<Sha>>) -> Result<Seats<Sha>, Fail>
    requires { All (IsSeatsOf sha256 server.now) all.old.items }
    ensures seats { IfOk result (IsSeatsOf sha256 server.now) }
    ensures left { All (IsSeatsOf sha256 server.now) all.new.items }
{
    match all.pop() {
        Some(seats) => Ok(seats),
        None => Err("a user is missing".into()),
    }
}

// ---- two walls

/// A server, and two lanes.
#[derive(Drop)]
pub struct Two {
    pub server: Server<Sha>,
    pub first: Lane<Sha, Held>,
    pub second: Lane<Sha, Held>,
}

/// One read of each of two users, of the wall that it owns. Each wire holds its carry until one was asked of the
/// other.
pub fn waiting(alloc: Global) -> Result<Two, Fail>
    ensures first { IfOk result (λ two. IsReady sha256 two.server two.first) }
    ensures second { IfOk result (λ two. IsReady sha256 two.server two.second) }
{
    let Opened {
        server,
        mut all,
        keys,
    } = two_walls(alloc, FIRST, SECOND)?;
    let one = next_seats(&server, &mut all)?;
    let other = next_seats(&server, &mut all)?;
    let (here, there) = Held::pair(alloc)?;
    let plan = Plan { many: 1, ..READS };
    let first = Part {
        user: 1,
        place: FIRST,
        plan,
    };
    let second = Part {
        user: 2,
        place: SECOND,
        plan,
    };
    let first = lane(alloc, &server, &keys, one, first, here)?;
    let second = lane(alloc, &server, &keys, other, second, there)?;
    Ok(Two {
        server,
        first,
        second,
    })
}

// ---- one session alone

/// What the owner of a wall does, whose server has secrets of this byte, over a wire that delivers these replies in
/// the place of its first, and loses the carries of these numbers.
pub fn alone<R: Threads + Wait + Sync>(
    rt: &R,
    alloc: Global,
    seed: u8,
    plan: Plan,
    replies: Vec<Option<Bytes>>,
    fails: Vec<u32>,
) -> Result<Lane<Sha, MemWire>, Fail> {
    let Opened {
        server,
        mut all,
        keys,
    } = one_wall(alloc, FIRST, seed)?;
    let seats = next_seats(&server, &mut all)?;
    let part = Part {
        user: 1,
        place: FIRST,
        plan,
    };
    let wire = MemWire::new(alloc, replies, fails);
    let lane = lane(alloc, &server, &keys, seats, part, wire)?;
    let mut lanes = run(rt, &server, Vec::from_array(alloc, [lane])?)?;
    match lanes.pop() {
        Some(lane) => Ok(lane),
        None => Err("the lane is missing".into()),
    }
}

// ---- four sessions on one wall

/// The lane of a user at the first wall. Each `every`th command of the owner's posts; the others read.
fn lane_at(
    alloc: Global,
    server: &Server<Sha>,
    keys: &Keys,
    seats: Seats<Sha>,
    every: usize,
) -> Result<Lane<Sha, Straight>, Fail>
    requires seats { IsSeatsOf sha256 server.now seats }
    requires walls { walls_of server.now ≡ FIRST.wall ∷ [] }
    ensures { IfOk result (IsReady sha256 server.now) }
{
    let user = u8::try_from(seats.user())?;
    let plan = if user == FIRST.owner {
        Plan { every, ..READS }
    } else {
        READS
    };
    let part = Part {
        user,
        place: FIRST,
        plan,
    };
    lane(alloc, server, keys, seats, part, Straight)
}

/// The lanes of all users.
fn lanes_of(
    alloc: Global,
    server: &Server<Sha>,
    keys: &Keys,
    mut all: Vec<Seats<Sha>>,
    every: usize,
) -> Result<Vec<Lane<Sha, Straight>>, Fail>
    requires seats { All (IsSeatsOf sha256 server.now) all.items }
    requires walls { walls_of server.now ≡ FIRST.wall ∷ [] }
    ensures { IfOk result (λ lanes. All (IsReady sha256 server.now) lanes.items) }
{
    let mut lanes = Vec::new(alloc);
    for _ in 0..4 {
        let seats = next_seats(server, &mut all)?;
        lanes.push(lane_at(alloc, server, keys, seats, every)?)?;
    }
    Ok(lanes)
}

/// A user, and what came of its commands.
pub type Told = (u32, OutcomeList);

/// The seats of a lane, and what came of its user's commands.
fn seats_of(lane: Lane<Sha, Straight>) -> (Seats<Sha>, Told)
    ensures { result.0 ≡ lane.session.seats }
{
    let Lane { session, .. } = lane;
    let Session {
        seats,
        outcomes,
        ..
    } = session;
    let user = seats.user();
    (seats, (user, outcomes))
}

/// The seats of lanes, and what came of their users' commands.
fn parted(
    alloc: Global,
    server: &Server<Sha>,
    mut lanes: Vec<Lane<Sha, Straight>>,
) -> Result<(Vec<Seats<Sha>>, Vec<Told>), Fail>
    requires { All (λ lane. IsSeatsOf sha256 server.now lane.session.seats) lanes.items }
    ensures { IfOk result (λ r. All (IsSeatsOf sha256 server.now) r.0.items) }
{
    let mut all = Vec::new(alloc);
    let mut told = Vec::new(alloc);
    while let Some(lane) = lanes.pop() {
        let (seats, one) = seats_of(lane);
        all.push(seats)?;
        told.push(one)?;
    }
    Ok((all, told))
}

/// The halls of a server of four users, whose seats these are.
fn closed(server: Server<Sha>, all: Vec<Seats<Sha>>) -> Result<Vec<Hall<Sha>>, Fail>
    requires seats { All (IsSeatsOf sha256 server) all.items }
    requires users { HasUsers server (4 ∷ 3 ∷ 2 ∷ 1 ∷ []) }
{
    if all.len() != 4 {
        return Err("a user is missing".into());
    }
    Ok(server.close(all)?)
}

/// The halls of a server at which four users did fifty commands each, all at once, and what came of these. Each
/// `every`th command of the wall's owner posts, and all others read.
pub fn four<R: Threads + Wait + Sync>(
    rt: &R,
    alloc: Global,
    every: usize,
) -> Result<(Vec<Hall<Sha>>, Vec<Told>), Fail> {
    let Opened { server, all, keys } = one_wall(alloc, FIRST, SERVER)?;
    let lanes = lanes_of(alloc, &server, &keys, all, every)?;
    let lanes = run(rt, &server, lanes)?;
    let (all, told) = parted(alloc, &server, lanes)?;
    Ok((closed(server, all)?, told))
}
