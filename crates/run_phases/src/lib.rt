//! The phases of a run, one after the other: each session's user gets a lane of its own, all lanes run at once, and then
//! all users meet.
#![tactic(auto)]

mod copying;
mod entering;
mod leaving;
mod playing;
mod running;

pub use playing::play;
pub use running::Running;
