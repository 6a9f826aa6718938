//! Tests of `hall_core` against an independent program. They stand apart, so that its source isn't proved again for them.
#![tactic(auto)]

#[cfg(test)]
mod tests;
