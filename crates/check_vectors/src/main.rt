//! Compares messages, vouching and the check of replies with a JSON document that an independent program wrote, read
//! from standard input. It leaves a part that it doesn't know. Bytes are in hexadecimal digits, and a number is one of
//! JSON or decimal digits in a text. Its parts, of which a document may lack any, are
//!
//! - `spellings`: a request or a reply by its fields, and its bytes. Compared is that the bytes are read as the
//!   message, and written of it.
//! - `no_spellings`: bytes at `request` or at `reply`. Compared is that they spell none.
//! - `vouching`: how many positions a client has, and the operations from there on, as their authors and the sizes of
//!   the views that they embed. Compared are the vouch points for fears from 0 on, and how many vouch from each
//!   position from 0 on.
//! - `replies`: what a client knows of a wall, the operation that it sent (or null), and the reply. Compared is what it
//!   makes of the reply. The keys are the document's, at `users` and at `server`.
//! - `keys_replies`: what a client knows, and a reply with the changes of the access list. Compared are the changes'
//!   numbers, or why it rejects the reply.
//! - `rows`: the two parts before again, with keys of their own.
//!
//! For each part it writes the index of each case that differs, from 0, a line each, and then
//! `PART N cases, D differ`. Its status is 0 where none differs, 1 where one does, and 2 where the document or a case
//! is malformed.
#![tactic(auto)]

use replies::{Keys, KeysReplies, Replies};
use serde_json::Value;
use std::alloc::Global;
use std::process::ExitCode;
use vector_cases::{DocumentFault, compare, read_document, status};

mod messages;
mod replies;
mod spellings;
mod vouching;

fn main(rt: HostRuntime) -> ExitCode {
    let differ = compared(&rt);
    ExitCode::from(status(&rt, differ))
}

/// How many cases differ.
fn compared(rt: &HostRuntime) -> Result<u64, DocumentFault> {
    let alloc = rt.alloc();
    let document = read_document(alloc, &mut rt.reader())?;
    let spell = compare(rt, alloc, &document, "spellings", &mut spellings::Spellings)?;
    let none = compare(
        rt,
        alloc,
        &document,
        "no_spellings",
        &mut spellings::NoSpellings,
    )?;
    let vouching = compare(rt, alloc, &document, "vouching", &mut vouching::Vouching)?;
    let checks = compared_walls(rt, alloc, &document)?;
    Ok(
        spell
            .saturating_add(none)
            .saturating_add(vouching)
            .saturating_add(checks),
    )
}

/// How many cases of replies differ, those of the document and those of its rows.
fn compared_walls(rt: &HostRuntime, alloc: Global, document: &Value) -> Result<u64, DocumentFault> {
    let checks = compared_checks(rt, alloc, document)?;
    match document.get("rows") {
        None => Ok(checks),
        Some(rows) => Ok(checks.saturating_add(compared_checks(rt, alloc, rows)?)),
    }
}

/// How many cases of replies differ, where the document has any.
fn compared_checks(
    rt: &HostRuntime,
    alloc: Global,
    document: &Value,
) -> Result<u64, DocumentFault> {
    let looks = compared_replies(rt, alloc, document)?;
    let keys = compared_keys(rt, alloc, document)?;
    Ok(looks.saturating_add(keys))
}

fn keys_for(alloc: Global, document: &Value, part: &'static str) -> Result<Keys, DocumentFault> {
    Keys::of(alloc, document).map_err(|cause| DocumentFault::Part { part, cause })
}

fn compared_replies(
    rt: &HostRuntime,
    alloc: Global,
    document: &Value,
) -> Result<u64, DocumentFault> {
    if document.get("replies").is_none() {
        return Ok(0);
    }
    let keys = keys_for(alloc, document, "replies")?;
    compare(rt, alloc, document, "replies", &mut Replies { keys })
}

fn compared_keys(rt: &HostRuntime, alloc: Global, document: &Value) -> Result<u64, DocumentFault> {
    if document.get("keys_replies").is_none() {
        return Ok(0);
    }
    let keys = keys_for(alloc, document, "keys_replies")?;
    compare(
        rt,
        alloc,
        document,
        "keys_replies",
        &mut KeysReplies { keys },
    )
}
