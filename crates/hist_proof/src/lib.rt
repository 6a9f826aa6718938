//! Pruned history trees: proofs that a root is that of a list of texts of which a part is shown. What a pruned
//! tree is, of which size it is one, which versions' roots it gives and which texts it shows; its one
//! spelling; and a form that keeps the digest of each node, so that many versions are digested cheaply.
#![tactic(auto)]

mod cuts;
mod digested;
pub mod laws;
mod leaves;
mod limits;
mod marks;
mod pruned;
mod reading;
mod sizes;
#[cfg(test)]
mod tests;
mod versions;
mod writing;

pub use cuts::cut;
pub use digested::DigestedTree;
pub use leaves::leaf_at;
pub use limits::{LEAF_BYTES_MAX, LEVELS_MAX};
pub use pruned::Pruned;
pub use reading::read_pruned;
pub use sizes::fits;
pub use versions::digest_at;
pub use writing::write_pruned;
