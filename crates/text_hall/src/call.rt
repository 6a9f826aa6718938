ghost use Rattle.std.specs.Prelude.{◌≡◌, IfOk};

use fr_bytes::{Bytes, NoMemory};
use fr_digest::Dig;
use hall_gate::Room;
use std::alloc::Global;

/// What a caller is told: the root of all texts with its own, or that an empty text isn't its to write.
#[derive(Clone, Copy, Debug, PartialEq, Eq)]
pub enum Reply {
    Placed(Dig),
    Refused,
}

/// A call as it is kept: who wrote what, and what the answer was.
#[derive(Debug, Drop)]
pub struct Call {
    pub caller: u32,
    pub text: Bytes,
    pub reply: Reply,
}

/// A call as it is handed in, with the memory of its entry.
#[derive(Drop)]
pub struct Slip {
    pub(crate) caller: u32,
    pub(crate) text: Bytes,
    pub(crate) room: Room<Call>,
}

impl Slip {
    /// A text that the caller is to write. Err means want of memory.
    pub fn new(alloc: Global, caller: u32, text: Bytes) -> Result<Slip, NoMemory>
        ensures { IfOk result (λ slip. (slip.caller ≡ caller) × (slip.text ≡ text)) }
    {
        let room = Room::new(alloc)?;
        Ok(Slip { caller, text, room })
    }
}
