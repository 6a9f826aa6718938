//! What the sessions of a run do: the laws by which what single commands did is what lanes, phases and runs did.
#![tactic(auto)]

pub mod laws;
mod place;

pub use place::Place;
