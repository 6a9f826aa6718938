ghost use Rattle.std.specs.Prelude.{◌≡◌};
ghost use Rattle.script_read.specs.Refusal.{Tells};
ghost use Rattle.script_read.specs.declared.refusal.ScriptRefusal.TheVariants as refusals;

use fr_bytes::{Bytes, NoMemory};
use std::alloc::{AllocError, AllocFailed, Global};

/// Of which list of a script a number is.
#[derive(Clone, Copy, Debug, PartialEq, Eq)]
pub enum Listed {
    User,
    Wall,
}

/// Why the bytes are no script. The first that applies is told: the reading goes over an object's keys in
/// their order and over a list's elements in order, depth first, and looks for unknown numbers and for
/// too many writes behind that.
#[derive(Debug, Drop)]
pub enum ScriptRefusal {
    /// The bytes are no JSON in UTF-8, or nest deeper than 127 levels.
    NotJson,
    /// A value is missing or isn't as its key wants it, or an element isn't as its list wants it. The name
    /// is the key's, `script` for the whole and `extra` for a further key.
    Field { name: Bytes },
    /// A number, a text or a list is past its limit, or there are too many commands. The name is the
    /// key's, `sessions` for a phase, `commands` for all commands and `script` for the bytes.
    Limit { name: Bytes },
    /// A user or a wall is named that isn't listed.
    Unknown { what: Listed, number: u32 },
    /// The user has more posts, admissions and removals than its key can sign.
    TooManyWrites { user: u32 },
    /// An allocation was refused.
    NoMemory,
}

impl From<NoMemory> for ScriptRefusal {
    ghost from_gives = { λ _ e. e ≡ refusals.NoMemory };

    fn from(_refused: NoMemory) -> ScriptRefusal {
        ScriptRefusal::NoMemory
    }
}

impl From<AllocError> for ScriptRefusal {
    ghost from_gives = { λ _ e. e ≡ refusals.NoMemory };

    fn from(_refused: AllocError) -> ScriptRefusal {
        ScriptRefusal::NoMemory
    }
}

impl<T: Drop> From<AllocFailed<T>> for ScriptRefusal {
    ghost from_gives = { λ _ e. e ≡ refusals.NoMemory };

    fn from(_refused: AllocFailed<T>) -> ScriptRefusal {
        ScriptRefusal::NoMemory
    }
}

/// `Field` with this name, or `NoMemory`.
pub(crate) fn field(alloc: Global, name: &str) -> ScriptRefusal
    ensures { Tells result (refusals.Field name.now) }
{
    match Vec::from_slice(alloc, name.as_bytes()) {
        Ok(name) => ScriptRefusal::Field {
            name: Bytes::of(name),
        },
        Err(_) => ScriptRefusal::NoMemory,
    }
}

/// `Limit` with this name, or `NoMemory`.
pub(crate) fn limit(alloc: Global, name: &str) -> ScriptRefusal
    ensures { Tells result (refusals.Limit name.now) }
{
    match Vec::from_slice(alloc, name.as_bytes()) {
        Ok(name) => ScriptRefusal::Limit {
            name: Bytes::of(name),
        },
        Err(_) => ScriptRefusal::NoMemory,
    }
}
