//! The laws of the roots and of the digests of access lists. Each function's contract is the law, and its
//! body is empty or computes nothing.

pub mod access_list;
pub mod history;
pub mod parts;
