//! Honest replies: what an honest server shows of a wall to a client that follows it, and that no check refuses it.
#![tactic(auto)]

pub mod laws;
