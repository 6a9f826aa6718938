//! What the lanes of a phase had goes back to the run.
ghost use Rattle.run_phases.specs.Phases.{Left};
ghost use Rattle.std.specs.Prelude.{◌≡◌, ◌++◌, ◌∷◌, [], OnOk};

use crate::running::Running;
use fr_bytes::NoMemory;
use fr_digest::Digester;
use session_run::{Lane, Session};

// Gives the run back what one lane had, but for its wire.
fn give_back<D: Digester, W: Drop>(
    run: &mut Running<D, W>,
    session: Session<D>,
) -> Result<(), NoMemory>
    ensures clients { OnOk result (run.new.clients.items ≡ run.old.clients.items ++ session.client ∷ []) }
    ensures seats { OnOk result (run.new.seats.items ≡ run.old.seats.items ++ session.seats ∷ []) }
    ensures outcomes { OnOk result (run.new.outcomes.items ≡ run.old.outcomes.items ++ session.outcomes) }
    ensures wires { run.new.wires ≡ run.old.wires }
{
    let Session {
        client,
        seats,
        outcomes,
        ..
    } = session;
    let mut told = outcomes.into_vec();
    run.clients.push(client)?;
    run.seats.push(seats)?;
    run.outcomes.append(&mut told)?;
    Ok(())
}

/// The lanes' clients and seats come behind those of the run, the wires in front of its wires, and the outcomes behind
/// its outcomes, each in the lanes' order.
pub(crate) fn leave<D: Digester, W: Drop>(
    run: &mut Running<D, W>,
    lanes: Vec<Lane<D, W>>,
) -> Result<(), NoMemory>
    ensures { OnOk result (Left run.old run.new lanes.items) }
{
    let mut wires = Vec::new(*lanes.allocator());
    for lane in lanes {
        let Lane { session, wire, .. } = lane;
        wires.push(wire)?;
        give_back(run, session)?;
    }
    wires.append(&mut run.wires)?;
    run.wires = wires;
    Ok(())
}
