//! A small hall behind the turn lock: callers write texts on one wall, and are told the root of all
//! texts on it. It shows how a value with a law of its own is put behind a gate, and what a caller of
//! `Gate::turn` can promise; the tests of the lock and its benchmark run it.
#![tactic(auto)]

mod call;
mod hall;
#[cfg(test)]
mod tests;
mod turns;
mod writers;

pub use call::{Call, Reply, Slip};
pub use hall::TextHall;
pub use turns::answer;
pub use writers::{Numbers, opened, write_all};
