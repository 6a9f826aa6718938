use crate::book::UserBooks;
use crate::log::Log;
use lms_tree::PublicKey;

/// What everybody knows of a wall.
#[derive(Clone, Copy, Debug, PartialEq, Eq)]
pub struct WallNote {
    /// The wall.
    pub wall: u32,
    /// The user who owns it.
    pub owner: u32,
    /// How many of its users may be in league with its server.
    pub f: u32,
    /// The key under which its server signs its views.
    pub server: PublicKey,
}

/// A list of walls' notes.
pub type WallNotes = Log<WallNote>;

/// What is kept of a run: a book for each listed user and a note for each wall, both in rising number.
#[derive(Debug, Drop)]
pub struct World {
    /// The users' books.
    pub users: UserBooks,
    /// The walls' notes.
    pub walls: WallNotes,
}
