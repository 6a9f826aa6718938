//! Users who have a seat at every gate of a list of gates: they meet at all gates, and at the end all gates
//! are closed.
#![tactic(auto)]

mod closings;
mod meetings;
mod seats;
#[cfg(test)]
mod tests;

pub use closings::{close_users, turns_end};
pub use meetings::meet_users;
pub use seats::Seats;
