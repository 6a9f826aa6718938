ghost use Rattle.std.specs.Prelude.{◌≡◌, IfOk, IfErr};
ghost use Rattle.hall_core.specs.PlainWall.{IsAsk};

use crate::ask::{Ask, Called};
use fr_bytes::NoMemory;
use hall_gate::Room;
use std::alloc::Global;
use std::marker::Model;

/// A call as it is handed in: its caller, what it asks, and the memory of its entry.
#[derive(Drop)]
pub struct Slip {
    caller: u32,
    ask: Ask,
    room: Room<Called>,
}

impl Model for Slip {
    ghost use Rattle.hall_core.specs.PlainWall.{IsAsk};
    ghost use Rattle.hall_core.specs.Slips.{Slip};

    ghost Value = { Slip };

    ghost view = { λ s. record { caller = s.caller; ask = s.ask } };

    ghost invariant = { λ s. IsAsk s.ask };
}

impl Slip {
    /// A call of `caller`, who asks this. On want of memory the ask is given back.
    pub fn new(alloc: Global, caller: u32, ask: Ask) -> Result<Slip, (NoMemory, Ask)>
        requires { IsAsk ask }
        ensures made { IfOk result (λ slip. slip ≡ record { caller = caller; ask = ask }) }
        ensures back { IfErr result (λ refused. refused.1 ≡ ask) }
    {
        match Room::new(alloc) {
            Ok(room) => Ok(Slip { caller, ask, room }),
            Err(refused) => Err((refused, ask)),
        }
    }

    /// The caller, what is asked, and the memory of the entry.
    pub(crate) fn into_parts(self) -> (u32, Ask, Room<Called>)
        ensures caller { result.0 ≡ self.caller }
        ensures ask { result.1 ≡ self.ask }
        ensures spelled { IsAsk self.ask }
    {
        let Slip { caller, ask, room } = self;
        (caller, ask, room)
    }
}
