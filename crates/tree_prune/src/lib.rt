//! Prunings that are made: the least part of a history, or of an access list, that shows what a reader is to see.
#![tactic(auto)]

mod fitting;
pub mod history;
pub mod list;
#[cfg(test)]
mod tests;

pub use fitting::fits_change;
pub use history::{prune, prune_at};
pub use list::prune_for;
