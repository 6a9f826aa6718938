//! Keys of a wall that change when a friend joins or leaves: the key tree of the owner, the book of keys of a member,
//! and the law of who reaches which key.
//!
//! The root of a tree of depth t is node 1, the children of node x are 2x and 2x + 1, and slot s is node 2^t + s. A
//! member has a slot, and the owner has none. An inner node has a key in each generation, and a member its leaf key.
#![tactic(auto)]

mod book;
mod change;
mod history;
mod keys;
pub mod laws;
mod node_keys;
#[cfg(test)]
mod tests;
mod tree;
mod wraps;

pub use book::KeyBook;
pub use change::{Change, KeyChange, PlanRefusal};
pub use keys::{INNER_KEY_TAG, LEAF_KEY_TAG, inner_key, leaf_key};
pub use tree::KeyTree;
