//! What a run of a script begins with: the server of its walls, each user's seats and client, and what everybody knows of
//! the walls.
#![tactic(auto)]

mod begun;
mod clients;
mod halls;
mod keys;
mod making;
mod numbers;
mod shared;

pub use begun::Start;
pub use making::start;
