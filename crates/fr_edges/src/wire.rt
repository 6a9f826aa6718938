ghost use Rattle.std.specs.Prelude.{◌≡◌, IfOk, length, map, replicate};
ghost use Rattle.fr_edges.specs.Wire.{Delivers, straight_view};

use fr_bytes::{Bytes, NoMemory};
use std::alloc::{AllocError, AllocFailed, Global};
use thiserror::Error;

/// Why a carry delivered nothing that may be read.
#[derive(Clone, Copy, Debug, PartialEq, Eq, Error)]
pub enum CarryEnd {
    /// The request or its reply was lost. The wire's count of faults has then risen.
    #[error("the request or its reply was lost")]
    Lost,
    /// An allocation was refused.
    #[error("an allocation was refused")]
    NoMemory,
}

impl From<NoMemory> for CarryEnd {
    ghost use Rattle.std.specs.Prelude.{◌≡◌};
    ghost use Rattle.fr_edges.specs.declared.wire.CarryEnd.TheVariants as ends;

    ghost from_gives = { λ _ e. e ≡ ends.NoMemory };

    fn from(_refused: NoMemory) -> CarryEnd {
        CarryEnd::NoMemory
    }
}

impl<T: Drop> From<AllocFailed<T>> for CarryEnd {
    ghost use Rattle.std.specs.Prelude.{◌≡◌};
    ghost use Rattle.fr_edges.specs.declared.wire.CarryEnd.TheVariants as ends;

    ghost from_gives = { λ _ e. e ≡ ends.NoMemory };

    fn from(_refused: AllocFailed<T>) -> CarryEnd {
        CarryEnd::NoMemory
    }
}

/// What a wire carried once: the request, the reply that was handed to it, and what it delivered,
/// which is absent where the exchange was lost.
#[derive(Debug, Drop)]
pub struct Carried {
    pub request: Bytes,
    pub reply: Bytes,
    pub delivered: Option<Bytes>,
}

/// What carries a request to a server and its reply back.
///
/// Its meanings are whether it is straight, what it carried, where it tells that, and a count of
/// faults, which never falls. A carry changes neither whether it is straight nor whether it tells.
pub trait Wire: Drop {
    ghost use Rattle.fr_edges.specs.Wire.{WireView, Carries};

    ghost view: { Self → WireView };

    /// Carries `request` and the `reply` to it, and leaves in `out` what it delivers; `out` grows by
    /// its own allocator. A straight wire delivers the reply as it is, never answers `Lost` and never
    /// raises its count. Of another wire nothing is known of `out`. An `Ok` leaves the count as it was,
    /// and `Lost` comes only where it has risen. After an `Err` `out` isn't to be read.
    fn carry(&mut self, request: &[u8], reply: &[u8], out: &mut Vec<u8>) -> Result<(), CarryEnd>
        ensures { Carries (view self.old) (view self.new) request.now reply.now out.new.items result };
}

/// Replaces what `out` holds by `bytes`.
pub(crate) fn deliver(bytes: &[u8], out: &mut Vec<u8>) -> Result<(), CarryEnd>
    ensures { Delivers bytes.now out.new.items result }
{
    out.clear();
    match out.extend_from_slice(bytes) {
        Ok(()) => Ok(()),
        Err(_) => Err(CarryEnd::NoMemory),
    }
}

/// The straight wire: it delivers each reply as it is. Its count of faults is always 0, and it doesn't
/// tell what it carried.
#[derive(Clone, Copy, Debug)]
pub struct Straight;

impl Wire for Straight {
    ghost view = { λ _. straight_view };

    fn carry(&mut self, _request: &[u8], reply: &[u8], out: &mut Vec<u8>) -> Result<(), CarryEnd> {
        deliver(reply, out)
    }
}

/// That many straight wires. Fails for want of memory.
pub fn straight_wires(alloc: Global, count: usize) -> Result<Vec<Straight>, AllocError>
    ensures count { IfOk result (λ wires. length wires.items ≡ count) }
    ensures views { IfOk result (λ wires. map ⟦<Straight as Wire>⟧.view wires.items ≡ replicate count straight_view) }
{
    let mut wires = Vec::new(alloc);
    for _ in 0..count {
        wires.push(Straight)?;
    }
    Ok(wires)
}
