//! Pruned access lists: access lists of which a part is shown. What prunes a set of entries, what a look-up finds
//! in a pruned list, and what a change makes of one, with the laws that all crates of pruned lists stand on, and the
//! digest of a node.
#![tactic(auto)]

mod digests;
pub mod laws;
#[cfg(test)]
mod tests;

pub use digests::node_digest;
