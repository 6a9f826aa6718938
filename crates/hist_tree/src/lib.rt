//! The history of a wall as a persistent value: items in a row, and the root of every version of their tree
//! (Crosby and Wallach, USENIX Security 2009). The items stand in chunks of 32, which histories share, and a chunk
//! keeps the digest of each whole subtree over its items, so none is computed twice.
#![tactic(auto)]

mod chunk;
mod hist;
pub mod laws;
mod limits;
mod shared;
#[cfg(test)]
mod tests;

pub use hist::Hist;
