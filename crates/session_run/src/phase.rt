ghost use Rattle.client_core.specs.Clients.{Standing};
ghost use Rattle.hall_server.specs.Seating.{IsSeatsOf, walls_of};
ghost use Rattle.hall_server.specs.Sights.{user_of};
ghost use Rattle.script_form.specs.declared.outcome.Outcome.{Outcome};
ghost use Rattle.session_laws.specs.Doing.{tasks_of};
ghost use Rattle.session_laws.specs.Lanes.{LaneRun, ShortLane};
ghost use Rattle.session_laws.specs.Readiness.{CanDo};
ghost use Rattle.session_run.specs.Phases.{HasRun, IsAsked, IsReady};
ghost use Rattle.session_run.specs.Views.{client_of, told};
ghost use Rattle.std.specs.List.{All, AllByRecursion, Any};
ghost use Rattle.std.specs.Prelude.{◌≡◌, ◌+◌, ◌<◌, ◌≤◌, [], ℕ, false, length, slice_index_or, true, OnErr, OnOk};

use crate::command::run_command;
use crate::lane::{Lane, Session};
use fr_bytes::{NoMemory, Sequence};
use fr_digest::Digester;
use fr_edges::Wire;
use hall_server::Server;
use script_form::Outcome;
use session_laws::Place;
use std::alloc::Global;
use std::sync::Wait;
use std::thread::{self, Threads};

/// The most sessions of a phase.
const LANES: usize = 16;

// Does a session's commands, and puts their outcomes into an empty list. Stops at the first want of memory.
fn run_commands<D: Digester, W: Wire, R: Wait>(
    rt: &R,
    alloc: Global,
    server: &Server<D>,
    session: &mut Session<D>,
    wire: &mut W,
    phase: u32,
    number: u32,
    outcomes: &mut Vec<Outcome>,
) -> Result<(), NoMemory>
    requires seats { IsSeatsOf D.digest_of server.now session.old.seats }
    requires few { length session.old.commands ≤ 2048 }
    requires asked { AllByRecursion (IsAsked (walls_of server.now)) session.old.commands }
    requires can { CanDo (client_of session.old.client) session.old.commands }
    requires none { outcomes.old.items ≡ [] }
    ensures all { OnOk result (LaneRun D.digest_of (user_of session.old.seats)
        (told session.old.client session.old.seats (W.view wire.old) [])
        (told session.new.client session.new.seats (W.view wire.new) outcomes.new.items)
        (tasks_of phase number (user_of session.old.seats) session.old.commands)) }
    ensures some { OnErr result (ShortLane D.digest_of (user_of session.old.seats)
        (told session.old.client session.old.seats (W.view wire.old) [])
        (told session.new.client session.new.seats (W.view wire.new) outcomes.new.items)
        (tasks_of phase number (user_of session.old.seats) session.old.commands)) }
    ensures seats { IsSeatsOf D.digest_of server.now session.new.seats }
    ensures user { user_of session.new.seats ≡ user_of session.old.seats }
    ensures commands { session.new.commands ≡ session.old.commands }
{
    let Session {
        client,
        seats,
        commands,
        ..
    } = session;
    let mut place = Place {
        phase,
        session: number,
        command: 1,
    };
    for command in commands.as_slice() {
        outcomes.try_reserve(1)?;
        let outcome = run_command(rt, alloc, server, client, seats, wire, place, command)?;
        outcomes.push_reserved(outcome);
        place.command += 1;
    }
    Ok(())
}

// Does a lane's session.
fn run_lane<D: Digester, W: Wire, R: Wait>(
    rt: &R,
    alloc: Global,
    server: &Server<D>,
    phase: u32,
    number: u32,
    lane: &mut Lane<D, W>,
)
    requires { IsReady D.digest_of server.now lane.old }
    ensures { HasRun D.digest_of W.view server.now phase number lane.old lane.new }
{
    let mut outcomes = Vec::new(alloc);
    let done = run_commands(
        rt,
        alloc,
        server,
        &mut lane.session,
        &mut lane.wire,
        phase,
        number,
        &mut outcomes,
    );
    lane.session.outcomes = Sequence::of(outcomes);
    lane.short = done.is_err();
}

// Whether some lane is short.
fn some_short<D: Digester, W>(lanes: &Vec<Lane<D, W>>) -> bool
    ensures none { result ≡ false → All (λ lane. lane.short ≡ false) lanes.now.items }
    ensures some { result ≡ true → Any (λ lane. lane.short ≡ true) lanes.now.items }
{
    for lane in lanes {
        if lane.short {
            return true;
        }
    }
    false
}

/// Runs the sessions of a phase, all at once, each in a thread of its own: the lane at place i is session i + 1 of the
/// phase. There are at most 16. Each lane's client and seats are one user's, the seats are this server's, the client can do
/// the session's commands, of which there are at most 2,048, and no outcome is there yet.
///
/// Each lane does its commands one after the other: each is declined by the client, or it is asked of the server, the
/// reply is carried by the lane's wire, and the client hears what is delivered. Behind a reply that is the same or taken,
/// where the client needs keys, it asks for them in the same way. Each command adds one outcome.
///
/// It may wait for other lanes' turns, and says nothing of how long, nor of the order between lanes.
///
/// # Errors
/// `NoMemory` exactly where some lane is short: it met a want of memory, added no outcome for that command and did no
/// further one. The other lanes have done all of theirs.
pub fn run_phase<D: Digester + Send + Sync, W: Wire + Send, R: Threads + Wait + Sync>(
    rt: &R,
    phase: u32,
    lanes: &mut Vec<Lane<D, W>>,
    server: &Server<D>,
) -> Result<(), NoMemory>
    requires few { length lanes.old.items ≤ 16 }
    requires ready { All (IsReady D.digest_of server.now) lanes.old.items }
    ensures count { length lanes.new.items ≡ length lanes.old.items }
    ensures lanes { (i : ℕ) (d : _) → i < length lanes.old.items → HasRun D.digest_of W.view server.now phase (i + 1)
        (slice_index_or lanes.old.items i d) (slice_index_or lanes.new.items i d) }
    ensures ok { OnOk result (All (λ lane. lane.short ≡ false) lanes.new.items) }
    ensures short { OnErr result (Any (λ lane. lane.short ≡ true) lanes.new.items) }
{
    let alloc = *lanes.allocator();
    let each = |i: usize, lane: &mut Lane<D, W>|
        requires { IsReady D.digest_of server.now lane.old × (i < 16) }
        ensures { HasRun D.digest_of W.view server.entry.now phase (i + 1) lane.old lane.new }
    { run_lane(rt, alloc, server, phase, i as u32 + 1, lane) };
    thread::for_each_mut(rt, lanes, LANES, &each);
    if some_short(lanes) {
        return Err(NoMemory);
    }
    Ok(())
}
