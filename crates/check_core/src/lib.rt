//! The check of a reply: what a client that knows a wall, and has accepted a part of its history, makes of the bytes
//! that it was handed.
#![tactic(auto)]

mod checked;
mod heard;
mod judging;
mod keys;
mod keys_news;
mod positions;
mod read_tree;
mod reading;
mod rows;
mod shown;
mod told;

pub use check_rules::{Asked, Known};
pub use checked::Checked;
pub use judging::check;
pub use keys::check_keys;
