//! What a client makes of a reply: the verdict on the bytes that it was handed, as definitions, and their laws.
#![tactic(auto)]

mod asked;
mod known;
pub mod laws;

pub use asked::Asked;
pub use known::Known;
