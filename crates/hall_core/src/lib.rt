//! The one-thread wall: a list of leaves that takes each operation which its author signed, the law lets stand and
//! whose view is one of this wall; the entries of all calls; and the snapshots that replies are made of.
#![tactic(auto)]

mod ask;
mod facts;
mod hall;
mod item;
pub mod laws;
mod signing;
mod slip;
mod snapshot;
mod wall;

pub use ask::{Answer, Ask, Called, Cause};
pub use facts::WallFacts;
pub use hall::Hall;
pub use item::Item;
pub use slip::Slip;
pub use snapshot::Snapshot;
