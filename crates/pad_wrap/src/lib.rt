//! The key stream of a key and a stream number, XORed into texts and into keys: ChaCha20 as RFC 8439 defines it, under
//! the nonce of four zero bytes and the stream number, with the block counter from 0.
//!
//! No call takes memory, and none can fail. That the key stream is secret is claimed nowhere.
#![tactic(auto)]

pub mod laws;
mod padding;
#[cfg(test)]
mod tests;

pub use padding::{PAD_BYTES_MAX, pad, unwrap32, wrap32};
