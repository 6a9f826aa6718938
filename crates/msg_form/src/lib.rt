//! The messages between a client and its server: requests and replies, each with one spelling, and readers and writers
//! that are exact; why a client rejects a reply, and why it asks nothing, each with what a report prints of it.
#![tactic(auto)]

pub mod causes;
mod decline;
pub mod laws;
mod message;
mod reading;
pub mod tags;
#[cfg(test)]
mod tests;
mod verdict;
mod writing;

pub use decline::Decline;
pub use message::{REPLY_BYTES_MAX, Reply, Request};
pub use reading::{read_reply, read_request};
pub use verdict::{Detail, Verdict};
pub use writing::{write_reply, write_request};
