//! Pruned access lists: access lists of which a part is shown, as a reply carries them beside an operation. Their
//! digest, what a look-up finds in one and what a change makes of one, both also of lists that nobody's list was
//! pruned to; and their one spelling.
#![tactic(auto)]

mod change;
mod changes;
mod copying;
mod digests;
mod joining;
mod keeping;
pub mod laws;
mod limits;
mod look_up;
mod parts;
mod pruned_dict;
mod reading;
mod spelled;
#[cfg(test)]
mod tests;
mod writing;

pub use change::{Change, DictEnd};
pub use changes::apply;
pub use copying::copy;
pub use digests::digest;
pub use keeping::keeps_author;
pub use limits::LEVELS_MAX;
pub use look_up::{Found, find};
pub use pruned_dict::{Dicts, PrunedDict};
pub use reading::read_dict;
pub use spelled::is_spelled;
pub use writing::write_dict;
