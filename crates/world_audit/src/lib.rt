//! The audit of a run: from what is kept of it, either every history that honest clients have ground to believe is
//! lawful and agrees with what they accepted and signed, or two strings of one digest, or an operation that an honest
//! user never signed.
#![tactic(auto)]

pub mod laws;
