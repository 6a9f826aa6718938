//! A server is made: each hall goes behind a gate of its own, and each user is dealt a seat there.
ghost use Rattle.hall_core.specs.Standing as standing;
ghost use Rattle.hall_server.specs.Moves.{AllGet};
ghost use Rattle.hall_server.specs.Seating.{AreAll, HasUsers, IsMade, IsSeatless, IsSeatsOf, opened, walls_of};
ghost use Rattle.hall_server.specs.Sights.{sights_of, user_of};
ghost use Rattle.std.specs.List.{All, AllPairs};
ghost use Rattle.std.specs.Prelude.{◌≡◌, ◌≢◌, ◌<◌, ◌++◌, ◌∷◌, [], List, length, map, IfOk, OnOk};

use crate::seats::{Places, Seats};
use crate::server::Server;
use crate::turned::TurnedHall;
use fr_bytes::NoMemory;
use fr_digest::Digester;
use hall_core::laws::kept;
use hall_core::{Hall, Snapshot};
use hall_gate::{Gate, GateSeat};
use std::alloc::Global;

impl<D: Digester> Server<D> {
    /// A server of these halls, in their order, and the seats of each of the users, in theirs.
    ///
    /// There is at least one user, no two are the same, and no hall has an entry. Where two halls are of one wall,
    /// requests for that wall go to the first. On want of memory the halls are lost.
    pub fn make(halls: Vec<Hall<D>>, users: &[u32]) -> Result<(Server<D>, Vec<Seats<D>>), NoMemory>
        requires some { 0 < length users.now }
        requires apart { AllPairs (λ u v. u ≢ v) users.now }
        requires fresh { All (λ hall. hall.entries ≡ []) halls.items }
        ensures walls { IfOk result (λ r. walls_of r.0 ≡ map (λ (hall : standing.Hall). hall.facts.wall) halls.items) }
        ensures users { IfOk result (λ r. HasUsers r.0 users.now × (map user_of r.1.items ≡ users.now)) }
        ensures seats { IfOk result (λ r. All (IsSeatsOf D.digest_of r.0) r.1.items) }
        ensures all { IfOk result (λ r. AreAll r.0 r.1.items) }
        ensures opened { IfOk result (λ r. All (λ seats. sights_of seats ≡ map opened halls.items) r.1.items) }
    {
        let alloc = *halls.allocator();
        let mut halls = halls;
        let mut server = Server {
            gates: Vec::new(alloc),
            walls: Vec::new(alloc),
        };
        let mut all = seatless(alloc, users)?;
        halls.reverse();
        while let Some(hall) = halls.pop() {
            all = server.open(alloc, hall, users, all)?;
        }
        Ok((server, all))
    }

    // One more hall: it goes behind a gate, and each user gets a seat there.
    fn open(
        &mut self,
        alloc: Global,
        hall: Hall<D>,
        users: &[u32],
        all: Vec<Seats<D>>,
    ) -> Result<Vec<Seats<D>>, NoMemory>
        requires some { 0 < length users.now }
        requires apart { AllPairs (λ u v. u ≢ v) users.now }
        requires fresh { hall.entries ≡ [] }
        requires many { length all.items ≡ length users.now }
        ensures { IfOk result (λ seated. (halls : List standing.Hall) → IsMade D.digest_of users.now halls self.old all.items
            → IsMade D.digest_of users.now (halls ++ hall ∷ []) self.new seated.items) }
    {
        kept(&hall);
        let snapshot = hall.seen()?;
        let wall = snapshot.view().wall;
        let Ok((gate, places)) = Gate::make(alloc, TurnedHall { hall }, users) else {
            return Err(NoMemory);
        };
        let seated = deal(alloc, places, &snapshot, all)?;
        self.gates.push(gate)?;
        self.walls.push(wall)?;
        Ok(seated)
    }
}

// Users without seats.
fn seatless<D: Digester>(alloc: Global, users: &[u32]) -> Result<Vec<Seats<D>>, NoMemory>
    ensures users { IfOk result (λ all. map user_of all.items ≡ users.now) }
    ensures none { IfOk result (λ all. All IsSeatless all.items) }
{
    let mut all = Vec::new(alloc);
    for user in users {
        all.push(Seats {
            user: *user,
            places: Places {
                seats: Vec::new(alloc),
            },
            snapshots: Vec::new(alloc),
        })?;
    }
    Ok(all)
}

// Gives each user its seat, with a share of the snapshot.
fn deal<D: Digester>(
    alloc: Global,
    mut places: Vec<GateSeat<TurnedHall<D>>>,
    snapshot: &Snapshot<D>,
    mut all: Vec<Seats<D>>,
) -> Result<Vec<Seats<D>>, NoMemory>
    requires { length places.items ≡ length all.items }
    ensures { IfOk result (λ dealt. AllGet snapshot.now places.items all.items dealt.items) }
{
    let mut dealt = Vec::with_capacity(alloc, all.len())?;
    while let Some(mut seats) = all.pop() {
        let Some(place) = places.pop() else {
            unreachable!()
        };
        seats.add(place, snapshot.share()?)?;
        dealt.push_reserved(seats);
    }
    dealt.reverse();
    Ok(dealt)
}
