//! The audit of a run. From what is kept of it: an operation in the name of an honest user who never signed it; else
//! two strings of one digest, from the first comparison that differs; else that every history with a ground is sound.
#![tactic(auto)]

mod answer;
mod clashes;
mod index;
mod judging;
mod line;
mod order;
mod pruned;
mod record;
mod same;
mod stories;
mod unsigned;

pub use answer::{AuditEnd, Sound};
pub use judging::audit;
