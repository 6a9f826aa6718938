//! Compares key streams, key trees and books of keys with a JSON document that an independent program wrote, read from
//! standard input. Bytes are in hexadecimal digits, a number is one of JSON or decimal digits in a text, and `null` is
//! no value. Its parts, of which a document may lack any, are
//!
//! - `pads`: a key, a stream number and a text. Compared is the text, padded.
//! - `runs`: a tree, its users' secrets, and steps. Compared are the root key of epoch 0; of each step the slot and
//!   the wraps that are planned, or why none are; where it is followed, whether it fits, the root key of its epoch,
//!   and whose books hold it; and at the end the root keys in each book, from epoch 0 on.
//! - `unfitting`: one tree, whose steps are the cases, and are followed in turn. Compared are whether a step fits, and
//!   the root key of its epoch.
//!
//! For each part it writes the index of each case that differs, from 0, a line each, and then
//! `PART N cases, D differ`. Its status is 0 where none differs, 1 where one does, and 2 where the document or a case
//! is malformed. It leaves a part that it doesn't know.
#![tactic(auto)]

use std::process::ExitCode;
use vector_cases::{DocumentFault, compare, read_document, status};

mod pads;
mod run;
mod runs;
#[cfg(test)]
mod tests;
mod unfitting;
mod words;

fn main(rt: HostRuntime) -> ExitCode {
    let differ = compared(&rt);
    ExitCode::from(status(&rt, differ))
}

/// How many cases differ.
fn compared(rt: &HostRuntime) -> Result<u64, DocumentFault> {
    let alloc = rt.alloc();
    let document = read_document(alloc, &mut rt.reader())?;
    let pads = compare(rt, alloc, &document, "pads", &mut pads::Pads)?;
    let runs = compare(rt, alloc, &document, "runs", &mut runs::Runs)?;
    let unfitting = unfitting::compare(rt, alloc, &document)?;
    Ok(pads.saturating_add(runs).saturating_add(unfitting))
}
