//! Roots over lists and digests over sets: what the history tree of a list of texts is, and the treap of
//! an access list, with the laws that every crate of trees stands on.
#![tactic(auto)]

mod entry;
mod entry_set;
mod history;
pub mod laws;
mod priority;
mod set_changes;
#[cfg(test)]
mod set_tests;
#[cfg(test)]
mod tests;

pub use entry::{Entries, Entry, HasText};
pub use entry_set::{dict_digest, top_in};
pub use history::{depth_of, left_leaves, root_at, root_of};
pub use priority::above;
pub use set_changes::{add_entry, drop_user, find_entry, greater_users, set_next, smaller_users};
