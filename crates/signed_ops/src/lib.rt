//! Operations that their authors sign and views that servers sign: listed keys, the tests of both signatures, signing, and
//! copies.
#![tactic(auto)]

mod copies;
mod keys;
mod known;
pub mod laws;
mod signing;
#[cfg(test)]
mod tests;
mod views;

pub use copies::{leaf_copy, leaves_copy, op_copy, view_copy};
pub use keys::{is_author_signed, key_of};
pub use known::Known;
pub use signing::sign_op;
pub use views::is_view_signed;
