//! Documents of cases that an independent program wrote: JSON objects, whose members are parts. Programs that compare
//! a crate with such a document stand on these calls: they read the document, take the fields of a case, and count
//! the cases of a part that differ.
#![tactic(auto)]

mod document;
mod faults;
mod fields;
mod tally;

pub use document::{read_document, status};
pub use faults::{CaseFault, DocumentFault};
pub use fields::{
    byte_at, byte_of, bytes_at, bytes_of, dig_at, dig_of, dig_or_null, field, flag_at,
    is_bytes_or_null, list_at, list_of, number_at, number_of, small_at, small_of, word_at, word_of,
};
pub use tally::{Cases, Tally, compare};
