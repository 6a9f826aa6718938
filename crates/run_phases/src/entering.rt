//! The sessions of a phase get their lanes.
ghost use Rattle.hall_server.specs.Seating.{walls_of};
ghost use Rattle.hall_server.specs.Sights.{user_of};
ghost use Rattle.run_phases.specs.Members.{times};
ghost use Rattle.run_phases.specs.Phases.{AreMembers, Entered, IsPhase, LaneTaken};
ghost use Rattle.std.specs.Prelude.{◌≡◌, ◌≤◌, length, map, IfOk};

use crate::copying::copy_commands;
use crate::running::Running;
use fr_bytes::{NoMemory, Sequence};
use fr_digest::Digester;
use hall_server::Server;
use script_form::ScriptSession;
use session_run::{Lane, Session};
use std::alloc::Global;

// A lane for the next session.
fn lane_for<D: Digester, W: Drop>(
    alloc: Global,
    run: &mut Running<D, W>,
    session: &ScriptSession,
) -> Result<Lane<D, W>, NoMemory>
    requires known { 1 ≤ times session.now.user (map user_of run.old.seats.items) }
    requires even { length run.old.clients.items ≡ length run.old.seats.items }
    requires wires { 1 ≤ length run.old.wires.items }
    ensures { IfOk result (LaneTaken session.now run.old run.new) }
{
    let commands = copy_commands(alloc, &session.commands)?;
    let (client, seats) = run.take_user(session.user);
    let wire = run.wires.remove(0);
    Ok(Lane {
        session: Session {
            client,
            seats,
            commands,
            outcomes: Sequence::of(Vec::new(alloc)),
        },
        wire,
        short: false,
    })
}

/// A lane for each session of a phase, in their order. The wires are the first of the run's.
pub(crate) fn enter<D: Digester, W: Drop>(
    alloc: Global,
    server: &Server<D>,
    run: &mut Running<D, W>,
    sessions: &[ScriptSession],
) -> Result<Vec<Lane<D, W>>, NoMemory>
    requires members { AreMembers D.digest_of server.now run.old.clients.items run.old.seats.items }
    requires sessions { IsPhase (walls_of server.now) (map user_of run.old.seats.items) sessions.now }
    requires wires { length sessions.now ≤ length run.old.wires.items }
    ensures { IfOk result (λ lanes. Entered D.digest_of server.now sessions.now run.old run.new lanes.items) }
{
    let mut lanes = Vec::new(alloc);
    for session in sessions {
        let lane = lane_for(alloc, run, session)?;
        lanes.push(lane)?;
    }
    Ok(lanes)
}
