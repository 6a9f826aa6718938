//! The script that a call runs: by the words behind the program's name it is read from a source, or generated from a
//! number.
#![tactic(auto)]

mod choice;
mod generated;
#[cfg(test)]
mod tests;

pub use choice::{Chosen, Form, Unchosen, choose};
pub use generated::generated_law;
