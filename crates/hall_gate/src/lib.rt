//! A ticket lock round a value whose calls are written down. Under any number of threads there is
//! one history of calls: each caller sees a front of it, in which its own calls stand once each, in
//! its order, with the answers that it was given.
#![tactic(auto)]

mod calls;
mod close;
mod gate;
mod laws;
mod make;
mod meet;
mod parking;
mod plays;
mod rule;
mod seat;
mod turn;
mod turned;

pub use calls::{Calls, Room};
pub use gate::Gate;
pub use laws::{knows_fixed, sees_more};
pub use seat::GateSeat;
pub use turned::Turned;
