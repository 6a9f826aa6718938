//! Users meet at all walls.
ghost use Rattle.hall_server.specs.Meetings.{HasMet, KnowsOf};
ghost use Rattle.hall_server.specs.Moves.{places_of, seated};
ghost use Rattle.hall_server.specs.Seating.{IsSeatsOf};
ghost use Rattle.std.specs.List.{All, AllZip};
ghost use Rattle.std.specs.Prelude.{◌≡◌, [], length, IfOk, OnErr, OnOk};

use crate::seats::{Places, Seats};
use crate::server::Server;
use fr_bytes::NoMemory;
use fr_digest::Digester;
use gate_users::meet_users;
use std::alloc::Global;
use std::mem;

impl<D: Digester> Server<D> {
    /// All these users meet, at each wall: what each has then seen of a wall begins with what every one of them, itself
    /// included, had seen of it before, and has no new entry of its own. The snapshots are as they were.
    ///
    /// The seats are this server's. It doesn't wait. Want of memory comes before anything is done.
    pub fn meet_all(&self, seats: &mut Vec<Seats<D>>) -> Result<(), NoMemory>
        requires seats { All (IsSeatsOf D.digest_of self.now) seats.old.items }
        ensures seats { All (IsSeatsOf D.digest_of self.now) seats.new.items }
        ensures same { AllZip HasMet seats.old.items seats.new.items }
        ensures met { OnOk result (All (λ user. All (λ other. KnowsOf other user) seats.old.items) seats.new.items) }
        ensures unchanged { OnErr result (seats.new.items ≡ seats.old.items) }
    {
        let mut places = no_places(*seats.allocator(), seats.len())?;
        swap_places(seats, &mut places);
        meet_users(&self.gates, &mut places);
        swap_places(seats, &mut places);
        Ok(())
    }
}

// So many users' places, all empty.
pub(crate) fn no_places<D: Digester>(alloc: Global, many: usize) -> Result<Vec<Places<D>>, NoMemory>
    ensures { IfOk result (λ places. length places.items ≡ many) }
{
    let mut all = Vec::with_capacity(alloc, many)?;
    for _ in 0..many {
        all.push_reserved(Places {
            seats: Vec::new(alloc),
        });
    }
    Ok(all)
}

// Each user's places go to the list, and the list's to the user.
pub(crate) fn swap_places<D: Digester>(seats: &mut Vec<Seats<D>>, places: &mut Vec<Places<D>>)
    requires many { length places.old.items ≡ length seats.old.items }
    ensures seats { seats.new.items ≡ seated seats.old.items places.old.items }
    ensures places { places.new.items ≡ places_of seats.old.items }
{
    for user in 0..seats.len() {
        mem::swap(&mut seats[user].places, &mut places[user]);
    }
}
