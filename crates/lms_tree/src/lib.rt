//! LMS signatures of RFC 8554, section 5, for SHA-256: public keys, verification for all twenty
//! pairs of parameter sets, and a signer that uses each leaf of its tree once.
#![tactic(auto)]

pub use key::{KeyRefusal, PublicKey, UserKeys};
pub use law::signing_law;
pub use signer::{MakeRefusal, SignRefusal, Signer};
pub use verifying::verify;

mod key;
mod law;
mod nodes;
mod rows;
mod signer;
#[cfg(test)]
mod tests;
mod tree;
mod verifying;
