//! Phases are played: the lanes of each run at once, and then all users meet.
ghost use Rattle.hall_server.specs.Seating.{walls_of};
ghost use Rattle.hall_server.specs.Sights.{user_of};
ghost use Rattle.run_phases.specs.Members.{member_at, times};
ghost use Rattle.run_phases.specs.Phases.{AreMembers, CanPlay, IsPhase, KeepsUsers, Played, PlayedPhase, members_of, run_view};
ghost use Rattle.run_phases.specs.Tasks.{commands_in, tasks_in};
ghost use Rattle.session_laws.specs.Histories.{IsUser};
ghost use Rattle.session_laws.specs.Readiness.{CanDo};
ghost use Rattle.session_laws.specs.Runs.{PhaseRun};
ghost use Rattle.std.specs.Prelude.{◌≡◌, ◌+◌, ◌<◌, ◌^◌, ◌∷◌, [], ℕ, List, length, map, OnOk};

use crate::entering::enter;
use crate::leaving::leave;
use crate::running::Running;
use fr_bytes::NoMemory;
use fr_digest::Digester;
use fr_edges::Wire;
use hall_server::Server;
use script_form::{Phases, ScriptSession};
use session_run::run_phase;
use std::alloc::Global;
use std::sync::Wait;
use std::thread::Threads;

// Runs the sessions of a phase in lanes of their own.
fn play_lanes<D: Digester + Send + Sync, W: Wire + Send, R: Threads + Wait + Sync>(
    rt: &R,
    alloc: Global,
    server: &Server<D>,
    run: &mut Running<D, W>,
    phase: u32,
    sessions: &[ScriptSession],
) -> Result<(), NoMemory>
    requires members { AreMembers D.digest_of server.now run.old.clients.items run.old.seats.items }
    requires wires { length run.old.wires.items ≡ 16 }
    requires sessions { IsPhase (walls_of server.now) (map user_of run.old.seats.items) sessions.now }
    requires can { (user : ℕ) → times user (map user_of run.old.seats.items) ≡ 1
        → CanDo (member_at user (members_of run.old)).client (commands_in user sessions.now) }
    ensures ran { OnOk result (PhaseRun D.digest_of (run_view W.view run.old) (run_view W.view run.new)
        (tasks_in phase 1 sessions.now)) }
    ensures users { OnOk result (KeepsUsers D.digest_of server.now run.old run.new) }
{
    let mut lanes = enter(alloc, server, run, sessions)?;
    run_phase(rt, phase, &mut lanes, server)?;
    leave(run, lanes)
}

// Plays a phase, behind which all users meet.
fn play_phase<D: Digester + Send + Sync, W: Wire + Send, R: Threads + Wait + Sync>(
    rt: &R,
    alloc: Global,
    server: &Server<D>,
    run: &mut Running<D, W>,
    phase: u32,
    sessions: &[ScriptSession],
) -> Result<(), NoMemory>
    requires members { AreMembers D.digest_of server.now run.old.clients.items run.old.seats.items }
    requires wires { length run.old.wires.items ≡ 16 }
    requires sessions { IsPhase (walls_of server.now) (map user_of run.old.seats.items) sessions.now }
    requires can { (user : ℕ) → times user (map user_of run.old.seats.items) ≡ 1
        → CanDo (member_at user (members_of run.old)).client (commands_in user sessions.now) }
    ensures played { OnOk result ((u : ℕ) (users : List ℕ)
        → ((user : ℕ) → IsUser (u ∷ users) user → times user (map user_of run.old.seats.items) ≡ 1)
        → PlayedPhase D.digest_of (u ∷ users) (run_view W.view run.old) (run_view W.view run.new)
        (tasks_in phase 1 sessions.now)) }
    ensures users { OnOk result (KeepsUsers D.digest_of server.now run.old run.new) }
{
    play_lanes(rt, alloc, server, run, phase, sessions)?;
    server.meet_all(&mut run.seats)
}

/// Plays the phases of a script, one after the other: in each the sessions' users do their commands, all sessions at once,
/// each session with the wire of its number, and then all users meet, so that each has seen all that was done.
///
/// The run's users are those of the server, each with its seats, none has seen an entry yet, and there are 16 wires. The
/// sessions are of these users and ask what may be asked of the server's walls, and each user's client can do all of the
/// user's commands.
///
/// It may wait for turns, and says nothing of how long.
///
/// # Errors
/// `NoMemory`. The phases before have been played, and of one more a part; the run is then of no further use.
pub fn play<D: Digester + Send + Sync, W: Wire + Send, R: Threads + Wait + Sync>(
    rt: &R,
    alloc: Global,
    server: &Server<D>,
    run: &mut Running<D, W>,
    phases: &Phases,
) -> Result<(), NoMemory>
    requires few { length phases.now + 1 < 2 ^ 32 }
    requires can { CanPlay D.digest_of server.now run.old phases.now }
    requires unseen { (user wall : ℕ) → ((run_view W.view run.old).seat user wall).front ≡ [] }
    ensures played { OnOk result ((u : ℕ) (users : List ℕ)
        → ((user : ℕ) → IsUser (u ∷ users) user → times user (map user_of run.old.seats.items) ≡ 1)
        → Played D.digest_of (u ∷ users) 1 phases.now (run_view W.view run.old) (run_view W.view run.new)) }
    ensures users { OnOk result (KeepsUsers D.digest_of server.now run.old run.new) }
{
    let mut phase = 1;
    for sessions in phases.as_slice() {
        play_phase(rt, alloc, server, run, phase, sessions.as_slice())?;
        phase += 1;
    }
    Ok(())
}
