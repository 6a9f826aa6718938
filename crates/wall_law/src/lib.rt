//! The law of a position of a wall: what an operation may do in the state before it, and the state that
//! it leaves.
#![tactic(auto)]

mod law;
pub mod laws;
mod refusal;
mod state;
#[cfg(test)]
mod tests;

pub use law::{judge_found, judge_op};
pub use refusal::{LawRefusal, PositionRefusal};
pub use state::{State, epoch_after, follow, genesis, state_after};
