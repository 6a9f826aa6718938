//! What is kept of a run for its audit: for each user the replies that its client took and the operations that it
//! signed; and what it is that such records are kept as honest clients keep them.
#![tactic(auto)]

mod book;
pub mod laws;
mod log;
#[cfg(test)]
mod tests;
mod took;
mod world;

pub use book::{UserBook, UserBooks};
pub use log::Log;
pub use took::{Signed, SignedOps, Took, Tooks};
pub use world::{WallNote, WallNotes, World};
