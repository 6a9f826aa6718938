//! Laws of histories, for whoever speaks of what a caller has seen of a list of calls and of a caller's turns in it.
//! The functions do nothing: each is there for what it ensures, at every way to read the caller of an entry.
ghost use Rattle.std.specs.Prelude.{ℕ};
ghost use Rattle.fr_bytes.specs.History.{TurnsGrow, TurnsStay, IsWhole};

/// A front that grows by entries of others and then by one of its own caller's has one turn more, and the
/// turns that it had. `E` is an entry, and `L` what a list of entries leads to, step by step.
pub fn turns_grow<E, L>()
    ensures { (caller : E → ℕ) → TurnsGrow caller L }
{}

/// A caller that has no more entries in a history than in a front of it has no more turns either.
pub fn turns_stay<E, L>()
    ensures { (caller : E → ℕ) → TurnsStay caller L }
{}

/// A front that has all of a history's entries of each caller is the whole history, where the history
/// has no entry of anyone else.
pub fn whole<E>()
    ensures { (caller : E → ℕ) → IsWhole caller }
{}
