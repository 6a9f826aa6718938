//! The edges of the program: where a script comes from, where a report goes, and what carries requests
//! and replies. Nothing is trusted of them but that a failure is counted. Edges in memory serve tests
//! and drills; the adapters over std's readers and writers serve the program.
#![tactic(auto)]

mod mem_sink;
mod mem_source;
mod mem_wire;
mod schedule;
mod sink;
mod source;
mod std_edges;
mod wire;

pub use mem_sink::MemSink;
pub use mem_source::MemSource;
pub use mem_wire::MemWire;
pub use sink::Sink;
pub use source::{Failed, Source};
pub use std_edges::{StdSink, StdSource};
pub use wire::{Carried, CarryEnd, Straight, Wire, straight_wires};

#[cfg(test)]
mod tests;
