//! Tests of the audit of a run.
#![tactic(auto)]

#[cfg(test)]
mod tests;
