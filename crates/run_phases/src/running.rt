ghost use Rattle.hall_server.specs.Sights.{user_of};
ghost use Rattle.run_phases.specs.Members.{times};
ghost use Rattle.run_phases.specs.Phases.{TakesOut};
ghost use Rattle.std.specs.Prelude.{◌≡◌, ◌<◌, ◌≤◌, length, map, slice_index_or};

use client_core::Client;
use fr_digest::Digester;
use hall_server::Seats;
use script_form::Outcome;

/// A run between its phases.
#[derive(Drop)]
pub struct Running<D: Digester, W> {
    /// The users' clients.
    pub clients: Vec<Client<D>>,
    /// The users' seats, in the clients' order.
    pub seats: Vec<Seats<D>>,
    /// The sessions' wires, in the sessions' order.
    pub wires: Vec<W>,
    /// What came of the commands that were done, in order.
    pub outcomes: Vec<Outcome>,
}

// Where the seats of a user stand.
fn place_of<D: Digester>(seats: &[Seats<D>], user: u32) -> usize
    requires known { 1 ≤ times user (map user_of seats.now) }
    ensures within { result < length seats.now }
    ensures here { (d : _) → user_of (slice_index_or seats.now result d) ≡ user }
{
    for place in 0..seats.len() {
        if seats[place].user() == user {
            return place;
        }
    }
    unreachable!()
}

impl<D: Digester, W> Running<D, W> {
    /// Takes the client and the seats of a user out of the run, which has as many clients as seats, and the user's among
    /// them. Takes no memory.
    pub fn take_user(&mut self, user: u32) -> (Client<D>, Seats<D>)
        requires known { 1 ≤ times user (map user_of self.old.seats.items) }
        requires even { length self.old.clients.items ≡ length self.old.seats.items }
        ensures taken { TakesOut user self.old.clients.items self.new.clients.items self.old.seats.items self.new.seats.items
            result.0 result.1 }
        ensures wires { self.new.wires ≡ self.old.wires }
        ensures outcomes { self.new.outcomes ≡ self.old.outcomes }
    {
        let place = place_of(self.seats.as_slice(), user);
        (self.clients.remove(place), self.seats.remove(place))
    }
}
