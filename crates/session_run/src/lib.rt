//! The sessions of a phase, each with its own thread: a session does its commands one after the other, asks the server,
//! carries each reply by its own wire, and hands what was delivered to its client.
#![tactic(auto)]

mod asking;
mod command;
mod ends;
mod exchange;
mod lane;
mod phase;

pub use lane::{Lane, Session};
pub use phase::run_phase;
