ghost use Rattle.std.specs.Prelude.{◌≡◌};
ghost use Rattle.script_read.specs.Writes.{is_write};

use fr_bytes::{Bytes, Sequence};
use fr_digest::Dig;

/// A script: users, walls, what the users do phase after phase, and what a malicious server does.
#[derive(Debug, Drop)]
pub struct Script {
    pub digest: DigestName,
    /// 1 to 32 users, each with a number of its own.
    pub users: ScriptUsers,
    /// 1 to 8 walls, each with a number of its own.
    pub walls: ScriptWalls,
    /// At most 64 phases.
    pub phases: Phases,
    /// At most 32 lines.
    pub tamper: TamperLines,
}

/// The digest of all trees of a run.
#[derive(Clone, Copy, Debug, PartialEq, Eq)]
pub enum DigestName {
    /// SHA-256.
    Sha,
    /// The short digest, under which collisions can be found.
    Short,
}

/// A list of users.
pub type ScriptUsers = Sequence<ScriptUser>;

/// A list of walls.
pub type ScriptWalls = Sequence<ScriptWall>;

/// A list of phases, which come one after the other.
pub type Phases = Sequence<Phase>;

/// A phase: at most 16 sessions, each of another user.
pub type Phase = Sequence<ScriptSession>;

/// A list of commands.
pub type Commands = Sequence<Command>;

/// A list of tamper lines.
pub type TamperLines = Sequence<TamperLine>;

/// A list of users' numbers.
pub type UserNumbers = Sequence<u32>;

/// A user with its keys. Numbers are from 1 to 65,535.
#[derive(Debug, Drop)]
pub struct ScriptUser {
    pub user: u32,
    /// What the user's signing key is made from.
    pub private: Dig,
    /// The identifier of that key.
    pub id: [u8; 16],
    /// The LMS typecode of that key: 5 for 32 signatures, 6 for 1,024.
    pub lms: u32,
    /// The LM-OTS typecode of that key, from 1 to 4.
    pub ots: u32,
    /// What the user's leaf secrets in key trees are made from.
    pub secret: Dig,
    /// Whether the user's client keeps no book.
    pub rogue: bool,
}

/// A wall with its keys. Its server's key has the LMS typecode 6.
#[derive(Debug, Drop)]
pub struct ScriptWall {
    pub wall: u32,
    /// The number of the user who owns the wall.
    pub owner: u32,
    /// How many users may lie where users vouch, at most 31.
    pub f: u32,
    /// How many levels the key tree has below its root, from 1 to 6.
    pub depth: u8,
    /// What the key tree's first keys are made from.
    pub master: Dig,
    /// What the server's signing key is made from.
    pub private: Dig,
    /// The identifier of that key.
    pub id: [u8; 16],
    /// The LM-OTS typecode of that key, from 1 to 4.
    pub ots: u32,
}

/// What a user does in a phase.
#[derive(Debug, Drop)]
pub struct ScriptSession {
    pub user: u32,
    pub commands: Commands,
}

/// What a user asks for.
#[derive(Debug, Drop)]
pub enum Command {
    /// Post a text on a wall: at most 1,024 bytes, each from `20` to `7e`.
    Post { wall: u32, text: Bytes },
    /// Read what is new on a wall.
    Read { wall: u32 },
    /// Read a wall from its beginning.
    ReadAll { wall: u32 },
    /// Admit a user to a wall, as a reader or as a writer.
    Admit { wall: u32, user: u32, role: u8 },
    /// Remove a user from a wall.
    Remove { wall: u32, user: u32 },
}

impl Command {
    /// Whether the command signs an operation. Takes no memory.
    pub fn is_write(&self) -> bool
        ensures { result ≡ is_write self.now }
    {
        match self {
            Command::Post { .. } | Command::Admit { .. } | Command::Remove { .. } => true,
            Command::Read { .. } | Command::ReadAll { .. } => false,
        }
    }
}

/// What a malicious server does. Phases, sessions and commands count from 1, bytes and positions from 0;
/// branch 0 is the honest server's. A line that can't be carried out does nothing.
#[derive(Debug, Drop)]
pub enum TamperLine {
    /// In the reply to a command, exclusive-or a byte with a mask from 1 to 255.
    Flip {
        phase: u64,
        session: u64,
        command: u64,
        byte: u64,
        mask: u8,
    },
    /// Keep that many first bytes of the reply to a command.
    Cut {
        phase: u64,
        session: u64,
        command: u64,
        keep: u64,
    },
    /// Append 1 to 1,024 bytes to the reply to a command.
    Add {
        phase: u64,
        session: u64,
        command: u64,
        bytes: Bytes,
    },
    /// Show a branch from another position.
    From {
        phase: u64,
        session: u64,
        command: u64,
        from: u64,
    },
    /// Make the branch `name`, from 1 to 8, of the first leaves of another.
    Branch {
        phase: u64,
        wall: u32,
        name: u8,
        of: u64,
        size: u64,
    },
    /// Serve a branch to these users from this phase on. A number may stand twice.
    Serve {
        phase: u64,
        wall: u32,
        branch: u64,
        users: UserNumbers,
    },
    /// Append a post of at most 1,024 bytes, signed with its author's key, to a branch.
    Forge {
        phase: u64,
        wall: u32,
        branch: u64,
        author: u32,
        seq: u64,
        epoch: u64,
        view: u64,
        body: Bytes,
    },
    /// Append the operation at a position of a branch to another branch.
    Replay {
        phase: u64,
        wall: u32,
        branch: u64,
        of: u64,
        position: u64,
    },
    /// Replace a post by another whose leaf has the same digest.
    Twin {
        phase: u64,
        wall: u32,
        branch: u64,
        position: u64,
    },
}
