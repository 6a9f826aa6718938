//! A server is closed, and the halls come back.
ghost use Rattle.hall_server.specs.Meetings.{AreClosedOn, HasNoStranger, IsKept};
ghost use Rattle.hall_server.specs.declared.turned.TurnedHall.{TurnedHall};
ghost use Rattle.hall_server.specs.Seating.{AreAll, HasUsers, IsSeatsOf};
ghost use Rattle.std.specs.List.{All};
ghost use Rattle.std.specs.Prelude.{◌≡◌, ℕ, [], List, length, map, IfOk};

use crate::meeting::{no_places, swap_places};
use crate::seats::Seats;
use crate::server::Server;
use crate::turned::TurnedHall;
use fr_bytes::NoMemory;
use fr_digest::Digester;
use gate_users::close_users;
use hall_core::Hall;
use hall_gate::Gate;
use std::alloc::Global;

impl<D: Digester> Server<D> {
    /// The halls of the walls, in the walls' order.
    ///
    /// The seats are all of this server's. Each hall is the one that the users knew, and its entries are one legal
    /// history: they begin with what each user had seen, and each user's entries among them are those that it had seen.
    /// None is of anyone who isn't a user of the server. On want of memory the halls are lost.
    pub fn close(self, seats: Vec<Seats<D>>) -> Result<Vec<Hall<D>>, NoMemory>
        requires seats { All (IsSeatsOf D.digest_of self) seats.items }
        requires all { AreAll self seats.items }
        ensures kept { IfOk result (λ halls. All (IsKept D.digest_of) halls.items) }
        ensures closed { IfOk result (λ halls. All (AreClosedOn D.digest_of halls.items) seats.items) }
        ensures users { (users : List ℕ) → HasUsers self users
            → IfOk result (λ halls. All (HasNoStranger users) halls.items) }
    {
        let alloc = *seats.allocator();
        let mut seats = seats;
        let mut places = no_places(alloc, seats.len())?;
        swap_places(&mut seats, &mut places);
        let halls = close_users(alloc, self.into_gates(), places)?;
        halls_of(alloc, halls)
    }

    fn into_gates(self) -> Vec<Gate<TurnedHall<D>>>
        ensures { result ≡ self.gates }
    {
        let Server { gates, walls: _ } = self;
        gates
    }
}

// The halls, without what they were behind the gates.
fn halls_of<D: Digester>(
    alloc: Global,
    mut turned: Vec<TurnedHall<D>>,
) -> Result<Vec<Hall<D>>, NoMemory>
    ensures { IfOk result (λ halls. halls.items ≡ map (λ (x : TurnedHall _). x.hall) turned.items) }
{
    let mut halls = Vec::with_capacity(alloc, turned.len())?;
    while let Some(one) = turned.pop() {
        halls.push_reserved(one.into_hall());
    }
    halls.reverse();
    Ok(halls)
}
