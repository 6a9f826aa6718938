//! The parameter sets of the LMS signatures of RFC 8554 for SHA-256: the four rows of LM-OTS, the
//! five rows of LMS, and the twenty pairs of one row of each.
#![tactic(auto)]

pub use pair::{LmsRow, OtsRow, Pair, pair_of, table_laws};

mod pair;
mod rows;
#[cfg(test)]
mod tests;
