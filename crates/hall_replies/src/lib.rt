//! Honest replies: what is shown of a snapshot of a wall, with no lock and no runtime.
#![tactic(auto)]

mod keys;
pub mod laws;
mod lists;
mod news;
mod ranges;
mod tree;

pub use keys::show_keys;
pub use news::show;
