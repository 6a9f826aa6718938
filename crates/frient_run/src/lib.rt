//! A call of the program: the words, the source, the run of a script, its audit, and what is said of it.
#![tactic(auto)]

mod ended;
mod fate;
pub mod laws;
mod running;
mod saying;
mod top;

pub use ended::{Ended, Halls};
pub use top::run_frient;
