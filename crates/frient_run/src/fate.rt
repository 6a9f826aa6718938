use crate::ended::Halls;
use fr_bytes::Bytes;
use script_form::Outcomes;
use world_book::World;

/// What a run came to, with the text that tells it and the status where each write is taken.
#[derive(Drop)]
pub struct Told {
    pub text: Bytes,
    pub status: u8,
    pub world: World,
    pub halls: Halls,
    pub outcomes: Outcomes,
}

/// What comes of a call, before its first byte is written.
#[derive(Drop)]
pub enum Fate {
    /// A script was run.
    Ran(Told),
    /// The words or the script are refused: the line that says why.
    Refused(Bytes),
    /// A read of the source failed.
    Unread,
    /// An allocation was refused.
    Starved,
}
