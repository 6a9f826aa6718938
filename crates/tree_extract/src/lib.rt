//! Collisions taken from trees: where two lists of texts differ and their roots agree, or where a pruned access list
//! doesn't prune a set of its digest, two strings of equal digest are found in the trees and handed out.
#![tactic(auto)]

#[cfg(test)]
mod dict_tests;
mod dicts;
mod history;
mod lists;
mod nodes;
#[cfg(test)]
mod tests;

pub use dicts::dict_clash;
pub use history::hist_clash;
pub use lists::{list_clash, slice_clash};
