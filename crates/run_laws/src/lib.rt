//! The laws of a run of which nothing was tampered with: what each command comes to, and what clients keep.
#![tactic(auto)]

pub mod laws;
