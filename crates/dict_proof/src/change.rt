ghost use Rattle.std.specs.Prelude.{◌≡◌};
ghost use Rattle.dict_proof.specs.declared.change.DictEnd.TheVariants as ends;

use fr_bytes::NoMemory;
use std::alloc::AllocFailed;
use thiserror::Error;
use tree_model::Entry;

/// What an operation makes of an access list beside its author's entry.
#[derive(Clone, Copy, Debug, PartialEq, Eq)]
pub enum Change {
    /// Nothing.
    None,
    /// The entry of a user comes in.
    Insert(Entry),
    /// The entry of this user goes.
    Remove(u32),
}

/// Why a change leaves no pruned list.
#[derive(Clone, Copy, Debug, PartialEq, Eq, Error)]
pub enum DictEnd {
    /// The change must enter a hidden part.
    #[error("the change must enter a hidden part")]
    Hid,
    /// An allocation was refused.
    #[error("an allocation was refused")]
    NoMemory,
}

impl From<NoMemory> for DictEnd {
    ghost from_gives = { λ _ e. e ≡ ends.NoMemory };

    fn from(_refused: NoMemory) -> DictEnd {
        DictEnd::NoMemory
    }
}

impl<T: Drop> From<AllocFailed<T>> for DictEnd {
    ghost from_gives = { λ _ e. e ≡ ends.NoMemory };

    fn from(_refused: AllocFailed<T>) -> DictEnd {
        DictEnd::NoMemory
    }
}
