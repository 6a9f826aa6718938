//! A user's client: what it asks of a wall, what it makes of replies, what it accepts, and what it keeps in the user's
//! book.
#![tactic(auto)]

mod client;
mod keys;
pub mod laws;
mod news;
mod sent;
mod side;
mod signing;
mod start;
mod wish;

pub use client::Client;
pub use news::News;
pub use sent::Sent;
pub use start::{Owned, SideStart, UserSecrets};
