//! The reading of a source to its end, and the writing of a whole text to a sink.
#![tactic(auto)]

mod input;
mod output;
#[cfg(test)]
mod tests;

pub use input::{InputEnd, SCRIPT_MAX, read_input};
pub use output::say;
