//! A whole run: what a script's users begin with, its phases, and what they come to.
#![tactic(auto)]

mod closing;
mod ordering;
mod running;

pub use closing::Ran;
pub use running::run_script;
