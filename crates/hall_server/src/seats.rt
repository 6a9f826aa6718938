ghost use Rattle.hall_core.specs.Snapshots.{Stands};
ghost use Rattle.hall_replies.specs.Kept.{IsOfHonest};
ghost use Rattle.hall_server.specs.Moves.{Gets};
ghost use Rattle.hall_server.specs.Seating.{AreShown};
ghost use Rattle.hall_server.specs.Sights.{sight_at, sights_of, user_of, walls_in};
ghost use Rattle.std.specs.List.{Contains};
ghost use Rattle.std.specs.Prelude.{◌≡◌, OnOk};

use crate::turned::TurnedHall;
use fr_bytes::NoMemory;
use fr_digest::Digester;
use hall_core::Snapshot;
use hall_gate::GateSeat;

/// A user's seats, one at each gate of a server.
pub type Places<D> = gate_users::Seats<TurnedHall<D>>;

/// One user's seats at a server, one at each of its walls, and of each wall the snapshot of the user's last turn there
/// that could be shown; at first that of the wall without leaves.
///
/// Contracts see of each wall what no call changes, the entries that the user has seen, and the leaves that the snapshot
/// shows. Seats may go to another thread.
#[derive(Drop)]
pub struct Seats<D: Digester> {
    pub(crate) user: u32,
    pub(crate) places: Places<D>,
    pub(crate) snapshots: Vec<Snapshot<D>>,
}

impl<D: Digester> Seats<D> {
    /// The number of the user. Takes no memory.
    pub fn user(&self) -> u32
        ensures { result ≡ user_of self.now }
    {
        self.user
    }

    /// The snapshot of the user's last turn at a wall that could be shown. The wall is one of the server's. Takes no
    /// memory.
    pub fn snapshot(&self, wall: u32) -> &Snapshot<D>
        requires shown { AreShown D.digest_of self.now }
        requires listed { Contains (walls_in (sights_of self.now)) wall }
        ensures stands { Stands D.digest_of (sight_at self.now wall).facts (sight_at self.now wall).leaves result.now }
        ensures honest { IsOfHonest D.digest_of result.now }
    {
        for snapshot in &self.snapshots {
            if snapshot.view().wall == wall {
                return snapshot;
            }
        }
        unreachable!()
    }

    // One seat more, with the snapshot of its wall.
    pub(crate) fn add(
        &mut self,
        place: GateSeat<TurnedHall<D>>,
        snapshot: Snapshot<D>,
    ) -> Result<(), NoMemory>
        ensures { OnOk result (Gets snapshot place self.old self.new) }
    {
        self.places.seats.push(place)?;
        self.snapshots.push(snapshot)?;
        Ok(())
    }
}
