//! The access list of a wall as a persistent value: each change gives a new version, and the old ones
//! stay as they were. A version is the treap of its entries, with the digests of its nodes.
#![tactic(auto)]

mod changes;
mod dict;
pub mod laws;
mod node;
#[cfg(test)]
mod tests;

pub use dict::Dict;
pub use node::Node;
