ghost use Rattle.std.specs.Prelude.{◌≡◌};
ghost use Rattle.fr_bytes.specs.declared.refusals.ReadRefusal.TheVariants as refusals;

use std::alloc::{AllocError, AllocFailed};
use thiserror::Error;

/// An allocation was refused. Unless a call says otherwise, all is then as it was before the call.
#[derive(Clone, Copy, Debug, PartialEq, Eq, Error)]
#[error("an allocation was refused")]
pub struct NoMemory;

impl From<AllocError> for NoMemory {
    fn from(_refused: AllocError) -> NoMemory {
        NoMemory
    }
}

impl<T: Drop> From<AllocFailed<T>> for NoMemory {
    fn from(_refused: AllocFailed<T>) -> NoMemory {
        NoMemory
    }
}

/// Why a reader of a format gives no value.
#[derive(Clone, Copy, Debug, PartialEq, Eq, Error)]
pub enum ReadRefusal {
    /// The bytes spell no value of the format.
    #[error("the bytes spell no value of the format")]
    NotForm,
    /// An allocation was refused.
    #[error("an allocation was refused")]
    NoMemory,
}

/// Fewer bytes are left than were asked for.
#[derive(Clone, Copy, Debug, PartialEq, Eq, Error)]
#[error("fewer bytes are left than were asked for")]
pub struct TooFew;

/// The bytes that are left spell no number of the range that was asked for: they are too few, or the
/// number is outside.
#[derive(Clone, Copy, Debug, PartialEq, Eq, Error)]
#[error("no number of the range is left")]
pub struct OutsideRange;

impl From<TooFew> for OutsideRange {
    fn from(_short: TooFew) -> OutsideRange {
        OutsideRange
    }
}

impl From<OutsideRange> for ReadRefusal {
    ghost from_gives = { λ _ e. e ≡ refusals.NotForm };

    fn from(_outside: OutsideRange) -> ReadRefusal {
        ReadRefusal::NotForm
    }
}

impl From<TooFew> for ReadRefusal {
    ghost from_gives = { λ _ e. e ≡ refusals.NotForm };

    fn from(_short: TooFew) -> ReadRefusal {
        ReadRefusal::NotForm
    }
}

impl From<NoMemory> for ReadRefusal {
    ghost from_gives = { λ _ e. e ≡ refusals.NoMemory };

    fn from(_refused: NoMemory) -> ReadRefusal {
        ReadRefusal::NoMemory
    }
}

impl From<AllocError> for ReadRefusal {
    ghost from_gives = { λ _ e. e ≡ refusals.NoMemory };

    fn from(_refused: AllocError) -> ReadRefusal {
        ReadRefusal::NoMemory
    }
}

impl<T: Drop> From<AllocFailed<T>> for ReadRefusal {
    ghost from_gives = { λ _ e. e ≡ refusals.NoMemory };

    fn from(_refused: AllocFailed<T>) -> ReadRefusal {
        ReadRefusal::NoMemory
    }
}
