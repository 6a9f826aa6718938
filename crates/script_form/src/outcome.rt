use fr_bytes::{Bytes, Sequence};
use fr_digest::Dig;
use msg_form::{Decline, Verdict};

/// What a run came to.
#[derive(Debug, Drop)]
pub struct Outcomes {
    /// An outcome for each command of the script, in the order of phases, sessions and commands.
    pub commands: OutcomeList,
    /// The honest server's walls at the end, in rising number.
    pub walls: WallEnds,
    pub audit: AuditLine,
}

/// A list of outcomes.
pub type OutcomeList = Sequence<Outcome>;

/// A list of shown positions.
pub type ShownList = Sequence<Shown>;

/// A list of walls at the end of a run.
pub type WallEnds = Sequence<WallEnd>;

/// What a command came to. Phases, sessions and commands count from 1.
#[derive(Debug, Drop)]
pub struct Outcome {
    pub phase: u32,
    pub session: u32,
    pub command: u32,
    pub end: CommandEnd,
    /// The positions that it shows, from the client's size before.
    pub shown: ShownList,
    pub keys: KeysEnd,
}

/// How a command ended.
#[derive(Clone, Copy, Debug, PartialEq, Eq)]
pub enum CommandEnd {
    /// The reply was taken: it was made from the position `from`, and the client's size is `size` now.
    Accepted {
        size: u64,
        from: u64,
    },
    /// The reply holds nothing new.
    Same {
        size: u64,
    },
    /// The server refused the operation.
    Refused {
        /// The cause's number, from 1 to 10.
        cause: u8,
        /// The wall's epoch of a stale epoch, the author's next number of a replayed one, else 0.
        number: u64,
    },
    /// The client rejected what was delivered, and keeps what it had accepted.
    Rejected(Verdict),
    /// Nothing was delivered.
    Lost,
    /// The client asked nothing.
    Declined(Decline),
}

/// A position that a command shows.
#[derive(Debug, Drop)]
pub struct Shown {
    /// The position, from 0.
    pub position: u64,
    /// The number of the operation's author.
    pub author: u32,
    pub what: ShownKind,
}

/// What the operation at a shown position does.
#[derive(Debug, Drop)]
pub enum ShownKind {
    /// A post that the client could read.
    Post { body: Bytes },
    /// A post for which the client has no key, or whose bytes aren't what the key wraps.
    Unreadable,
    /// An admission of a user as a reader, 1, or as a writer, 2.
    Admit { user: u32, role: u8 },
    /// A removal of a user.
    Remove { user: u32 },
}

/// How the exchange for keys ended that came behind a command.
#[derive(Clone, Copy, Debug, PartialEq, Eq)]
pub enum KeysEnd {
    /// None was needed, or its reply was taken.
    Fine,
    /// The client rejected what was delivered.
    Rejected(Verdict),
    /// Nothing was delivered.
    Lost,
}

/// A wall at the end of a run: its size, and its root, which is 32 zero bytes at size 0.
#[derive(Clone, Copy, Debug, PartialEq, Eq)]
pub struct WallEnd {
    pub wall: u32,
    pub size: u64,
    pub root: Dig,
}

/// What the audit found.
#[derive(Debug, Drop)]
pub enum AuditLine {
    /// Nothing. So many records are there, and so many of them are grounded.
    Sound { records: u64, grounded: u64 },
    /// Two different strings of one digest.
    Collision { a: Bytes, b: Bytes },
    /// The bytes of an operation that is validly signed under this user's key and that the user never
    /// signed.
    Forged { user: u32, wall: u32, op: Bytes },
}
