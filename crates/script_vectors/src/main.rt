//! Compares scripts and reports with a JSON document that an independent program wrote, read from standard input. The
//! document is a list of scripts, or an object with any of these parts:
//!
//! - `scripts`: a script, as text at `script`, or as bytes in hexadecimal digits at `hex`, and at `line` the word `ok`
//!   where it is one, or else what stands behind `refused script `. Compared is that it is read, or refused so. A
//!   document that is a list is this part.
//! - `reports`: a script, what a run of it came to (`commands`, `walls`, `audit`), and at `report` and `summary` the
//!   texts that are printed of it. Compared are both texts.
//!
//! For each part it writes the index of each case that differs, from 0, a line each, and then
//! `PART N cases, D differ`. Its status is 0 where none differs, 1 where one does, and 2 where the document or a case
//! is malformed.
#![tactic(auto)]

use serde_json::Value;
use std::alloc::Global;
use std::io::Read;
use std::process::ExitCode;
use vector_cases::{DocumentFault, Tally, compare, status};

mod ends;
mod reports;
mod runs;
mod scripts;
#[cfg(test)]
mod tests;

fn main(rt: HostRuntime) -> ExitCode {
    let differ = compared(&rt);
    ExitCode::from(status(&rt, differ))
}

/// How many cases differ.
fn compared(rt: &HostRuntime) -> Result<u64, DocumentFault> {
    let alloc = rt.alloc();
    let document = read_document(alloc, &mut rt.reader())?;
    if document.is_array() {
        return listed(rt, alloc, &document);
    }
    let scripts = compare(rt, alloc, &document, "scripts", &mut scripts::Scripts)?;
    let reports = compare(rt, alloc, &document, "reports", &mut reports::Reports)?;
    Ok(scripts.saturating_add(reports))
}

/// How many scripts of a list differ.
fn listed(rt: &HostRuntime, alloc: Global, list: &Value) -> Result<u64, DocumentFault> {
    let mut tally = Tally::new(alloc, "scripts");
    tally.add(list, &mut scripts::Scripts)?;
    tally.tell(rt)
}

/// The list or the object that an input holds.
fn read_document<R: Read>(alloc: Global, input: &mut R) -> Result<Value, DocumentFault> {
    let mut bytes = Vec::new(alloc);
    if input.read_to_end(&mut bytes).is_err() {
        return Err(DocumentFault::Unread);
    }
    match Value::from_slice(alloc, &bytes) {
        Ok(document) if document.is_array() || document.is_object() => Ok(document),
        Err(error) if error.is_memory() => Err(DocumentFault::NoMemory),
        _ => Err(DocumentFault::NoObject),
    }
}
