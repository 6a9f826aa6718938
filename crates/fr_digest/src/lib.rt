//! Digests of byte strings, and collisions that are shown rather than assumed away: a
//! [`Digester`] is a digest function, and a [`Clash`] holds two different strings of one digest.
#![tactic(auto)]

mod collision;
mod digests;
mod sha_256;
mod short;
#[cfg(test)]
mod tests;

pub use collision::Clash;
pub use digests::{Dig, Digester};
pub use sha_256::Sha;
pub use short::Short;
