ghost use Rattle.std.specs.Prelude.{◌≡◌};
ghost use Rattle.hall_core.specs.PlainWall as plain;

use op_types::Op;
use wall_law::LawRefusal;

/// What a caller asks of a wall.
#[derive(Debug, Drop)]
pub enum Ask {
    /// To be told how many leaves there are.
    Look,
    /// To add an operation.
    Append {
        /// The operation, signed by its author.
        op: Op,
    },
}

/// What a wall answers.
#[derive(Clone, Copy, Debug, PartialEq, Eq)]
pub enum Answer {
    /// A look: how many leaves there are.
    Looked {
        /// How many.
        size: u64,
    },
    /// The operation stands at this position, counted from 0.
    Placed {
        /// The position.
        position: u64,
    },
    /// The operation doesn't stand, and the wall is as it was.
    Refused {
        /// The first cause that applies.
        cause: Cause,
    },
}

/// Why a wall takes no such operation. The first that applies is told, in this order, except that want of memory is
/// told wherever it comes.
#[derive(Clone, Copy, Debug, PartialEq, Eq)]
pub enum Cause {
    /// The wall has all the leaves that it can have.
    Full,
    /// Its author has no known key, or the signature isn't valid under it.
    BadSignature,
    /// The operation is of another wall.
    WrongWall,
    /// Its author isn't in the access list as a writer or as the owner.
    NotAllowed,
    /// It was made at another epoch than the wall's.
    StaleEpoch {
        /// The wall's epoch.
        now: u64,
    },
    /// Its number is smaller than the author's next one.
    Replayed {
        /// The author's next number.
        next: u32,
    },
    /// It changes the access list, and its author isn't the owner, or it admits a user who is in the list, or it
    /// removes a user who isn't or who is the owner.
    BadChange,
    /// Its view covers more operations than the wall has.
    LateView,
    /// The view that it embeds isn't one of this wall, or the server didn't sign it.
    BadView,
    /// An allocation was refused.
    NoMemory,
}

/// A call as the wall keeps it: who asked what, and what was answered.
#[derive(Debug, Drop)]
pub struct Called {
    /// The number of the caller.
    pub caller: u32,
    /// What was asked.
    pub ask: Ask,
    /// What was answered.
    pub answer: Answer,
}

/// The law's refusal, as the cause of its name.
pub(crate) fn unlawful(refusal: LawRefusal) -> Cause
    ensures { result ≡ plain.unlawful refusal }
{
    match refusal {
        LawRefusal::WrongWall => Cause::WrongWall,
        LawRefusal::NotAllowed => Cause::NotAllowed,
        LawRefusal::StaleEpoch { now } => Cause::StaleEpoch { now },
        LawRefusal::Replayed { next } => Cause::Replayed { next },
        LawRefusal::BadChange => Cause::BadChange,
        LawRefusal::LateView => Cause::LateView,
    }
}
