//! Wires that wait for one another.
use fr_edges::{CarryEnd, Wire};
use std::alloc::{AllocError, Global};
use std::hint;
use std::sync::Arc;
use std::sync::atomic::{AtomicU64, Ordering};

/// How often a wire looks for the other's carry.
const TURNS: u32 = 10_000_000;

/// How many carries were asked of a wire.
type Asked = Arc<AtomicU64, Global>;

/// A wire that holds each carry until one was asked of another wire too. Where that doesn't come, the carry is lost.
#[derive(Drop)]
pub struct Held {
    mine: Asked,
    other: Asked,
    faults: u64,
}

impl Held {
    /// Two wires, each of which waits for the other.
    pub fn pair(alloc: Global) -> Result<(Held, Held), AllocError> {
        let first = Arc::new(alloc, AtomicU64::new(0))?;
        let second = Arc::new(alloc, AtomicU64::new(0))?;
        let one = wire(&first, &second)?;
        Ok((one, wire(&second, &first)?))
    }

    /// How many carries were lost.
    pub fn faults(&self) -> u64 {
        self.faults
    }

    // Whether a carry was asked of the other wire, now or within many looks.
    fn is_met(&self) -> bool {
        for _ in 0..TURNS {
            if self.other.load(Ordering::SeqCst) > 0 {
                return true;
            }
            hint::spin_loop();
        }
        false
    }
}

fn wire(mine: &Asked, other: &Asked) -> Result<Held, AllocError> {
    Ok(Held {
        mine: Arc::try_clone(mine)?,
        other: Arc::try_clone(other)?,
        faults: 0,
    })
}

impl Wire for Held {
    ghost use Rattle.std.specs.Prelude.{None, false};

    ghost view = { λ wire. record { straight = false; carried = None; faults = wire.faults } };

    fn carry(&mut self, _request: &[u8], reply: &[u8], out: &mut Vec<u8>) -> Result<(), CarryEnd> {
        self.mine.fetch_add(1, Ordering::SeqCst);
        if !self.is_met() {
            self.faults = self.faults.saturating_add(1);
            return Err(CarryEnd::Lost);
        }
        out.clear();
        match out.extend_from_slice(reply) {
            Ok(()) => Ok(()),
            Err(_) => Err(CarryEnd::NoMemory),
        }
    }
}
