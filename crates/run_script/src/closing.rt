//! The end of a run: the halls come back, the clients' books become its world, and that is audited.
ghost use Rattle.client_core.specs.Clients.{Standing};
ghost use Rattle.hall_server.specs.Seating.{AreAll};
ghost use Rattle.hall_server.specs.Sights.{user_of};
ghost use Rattle.run_end.specs.Ends.{AreTogether};
ghost use Rattle.run_phases.specs.Members.{times};
ghost use Rattle.run_phases.specs.Phases.{AreMembers};
ghost use Rattle.run_script.specs.Order.{Closes, Comes, InOrder};
ghost use Rattle.std.specs.Prelude.{◌≡◌, ℕ, List, map, IfOk};

use crate::ordering::in_order;
use client_core::Client;
use fr_bytes::{NoMemory, Sequence};
use fr_digest::Digester;
use hall_core::Hall;
use hall_server::Server;
use run_end::{audit_line, wall_ends, world_of};
use run_phases::Running;
use script_form::Outcomes;
use std::alloc::Global;
use world_book::{WallNotes, World};

/// What a run came to.
#[derive(Drop)]
pub struct Ran<D: Digester, W> {
    /// What came of the commands and of the walls, and what the audit found.
    pub outcomes: Outcomes,
    /// What is kept of the users and the walls.
    pub world: World,
    /// The halls of the walls, in rising order of their numbers.
    pub halls: Vec<Hall<D>>,
    /// The sessions' wires.
    pub wires: Vec<W>,
}

// What the books and the halls come to.
fn ended<D: Digester, W: Drop>(
    alloc: Global,
    clients: Vec<Client<D>>,
    notes: WallNotes,
    halls: Vec<Hall<D>>,
    run: Running<D, W>,
) -> Result<Ran<D, W>, NoMemory>
    requires { AreTogether notes clients.items }
    ensures { IfOk result (Comes D.digest_of clients.items notes halls.items run) }
{
    let world = world_of::<D>(alloc, clients, notes)?;
    let audit = audit_line::<D>(alloc, &world)?;
    let walls = wall_ends(alloc, &halls)?;
    let Running {
        wires,
        outcomes,
        ..
    } = run;
    Ok(Ran {
        outcomes: Outcomes {
            commands: Sequence::of(outcomes),
            walls,
            audit,
        },
        world,
        halls,
        wires,
    })
}

/// Ends a run whose users are these.
pub(crate) fn close<D: Digester, W: Drop>(
    alloc: Global,
    server: Server<D>,
    run: Running<D, W>,
    users: &[u32],
    notes: WallNotes,
) -> Result<Ran<D, W>, NoMemory>
    requires members { AreMembers D.digest_of server run.clients.items run.seats.items }
    requires counted { (user : ℕ) → times user users.now ≡ times user (map user_of run.seats.items) }
    requires all { (seats : List _) → map user_of seats ≡ users.now → AreAll server seats }
    requires together { (now : _) (clients : List Standing) (seats : List _)
        → InOrder D.digest_of server users.now run now clients seats → AreTogether notes clients }
    ensures { IfOk result (Closes D.digest_of server users.now notes run) }
{
    let mut run = run;
    let (clients, seats) = in_order(alloc, &server, &mut run, users)?;
    let halls = server.close(seats)?;
    ended(alloc, clients, notes, halls, run)
}
