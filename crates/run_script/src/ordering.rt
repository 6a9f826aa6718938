//! The users of a run that has ended, in rising order again.
ghost use Rattle.hall_server.specs.Sights.{user_of};
ghost use Rattle.run_phases.specs.Members.{times};
ghost use Rattle.run_phases.specs.Phases.{AreMembers};
ghost use Rattle.run_script.specs.Order.{InOrder};
ghost use Rattle.std.specs.Prelude.{◌≡◌, ℕ, map, IfOk};

use client_core::Client;
use fr_bytes::NoMemory;
use fr_digest::Digester;
use hall_server::{Seats, Server};
use run_phases::Running;
use std::alloc::Global;

/// The users whose seats these are, in their order.
pub(crate) fn users_of<D: Digester>(alloc: Global, seats: &[Seats<D>]) -> Result<Vec<u32>, NoMemory>
    ensures { IfOk result (λ users. users.items ≡ map user_of seats.now) }
{
    let mut users = Vec::new(alloc);
    for one in seats {
        users.push(one.user())?;
    }
    Ok(users)
}

/// The clients and the seats of these users, in this order. They are taken out of the run.
pub(crate) fn in_order<D: Digester, W>(
    alloc: Global,
    server: &Server<D>,
    run: &mut Running<D, W>,
    users: &[u32],
) -> Result<(Vec<Client<D>>, Vec<Seats<D>>), NoMemory>
    requires members { AreMembers D.digest_of server.now run.old.clients.items run.old.seats.items }
    requires counted { (user : ℕ) → times user users.now ≡ times user (map user_of run.old.seats.items) }
    ensures { IfOk result (λ r. InOrder D.digest_of server.now users.now run.old run.new r.0.items r.1.items) }
{
    let mut clients = Vec::new(alloc);
    let mut seats = Vec::new(alloc);
    for user in users {
        let (client, own) = run.take_user(*user);
        clients.push(client)?;
        seats.push(own)?;
    }
    Ok((clients, seats))
}
