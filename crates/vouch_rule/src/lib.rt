//! Vouching: how many users vouch for the positions that a reply leaves out, and the greatest position from which
//! enough of them do.
//!
//! Each operation embeds the view that its author had accepted, so its author stands for all that is before the view's
//! size. A client may skip old positions where more distinct users stand for them than it fears to lie.
#![tactic(auto)]

mod counting;
pub mod laws;
mod point;
#[cfg(test)]
mod tests;
mod vouch;

pub use counting::vouchers;
pub use point::vouch_point;
pub use vouch::Vouch;
