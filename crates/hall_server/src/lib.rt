//! The honest server: a hall behind a turn lock for each wall, and for each user a seat at every wall. A request is
//! answered by one turn and by the bytes that are made of the snapshot after it, outside of the lock.
#![tactic(auto)]

mod answering;
mod closing;
pub mod laws;
mod making;
mod meeting;
mod refusing;
mod replying;
mod seats;
mod server;
mod turned;

pub use hall_replies::{show, show_keys};
pub use seats::Seats;
pub use server::Server;
pub use turned::TurnedHall;
