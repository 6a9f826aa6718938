//! The one-time signatures LM-OTS of RFC 8554, section 4, for SHA-256: digits of a hash, public
//! values, signatures and candidate keys, generic over the four numbers of a row of the table.
#![tactic(auto)]

pub use bytes::{number_at, write_at};
pub use candidate::{OtsRefusal, ots_candidate};
pub use coefficients::{Dig, digits};
pub use hashes::hasher_of;
pub use law::{digits_law, signature_law};
pub use sign::{ots_public, ots_sign};

mod bytes;
mod candidate;
mod chain;
mod coefficients;
mod hashes;
mod law;
mod sign;
#[cfg(test)]
mod tests;
