ghost use Rattle.std.specs.Prelude.{◌≡◌, ℕ, List};

use fr_bytes::Sequence;

/// A user of a wall, as its access list has it.
#[derive(Clone, Copy, Debug, PartialEq, Eq)]
pub struct Entry {
    /// The user's number.
    pub user: u32,
    /// The user's role: 1 for a reader, 2 for a writer, 3 for the owner.
    pub role: u8,
    /// The least number that the user's next operation may have.
    pub next: u32,
}

/// An access list: one entry for each of its users.
pub type Entries = Sequence<Entry>;

/// What has a text, as an item of a history has its leaf's.
pub trait HasText {
    /// The text of each value.
    ghost text_of: { Self → List ℕ };

    /// The text.
    fn text(&self) -> &[u8]
        ensures { result.now ≡ text_of self.now };
}
