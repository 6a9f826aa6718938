//! Compares pruned history trees and pruned access lists with a JSON document that an independent program wrote, read
//! from standard input. Bytes are in hexadecimal digits, a number is one of JSON or decimal digits in a text, and
//! `null` is no value. Its parts, of which a document may lack any, are
//!
//! - `trees`: a tree's spelling, a size, the texts of a list, and `sha` or `short`. Compared are whether the tree fits
//!   the size, and where the case tells them, whether it prunes the list, its digest, and the roots, cuts and texts
//!   that it gives.
//! - `prunings`: how many texts `t0`, `t1`, .. a history has, and a size. Compared are the least tree that shows a
//!   rest and gives versions, and the one that shows positions.
//! - `parts`: the same, and a node's level and start. Compared is the node's digest.
//! - `short_clashes`: a tree of a list `others`, and a list `texts` of the same root under the short digest. Compared
//!   are the clashes of the tree and of `others` with `texts`, each two strings or `null`.
//! - `changes`: an access list's spelling, and an operation: its author, the author's next number and a change, which
//!   is `null`, `["insert", USER, ROLE]` or `["remove", USER]`. Compared are the list's digest, what look-ups find,
//!   and the spelling of what the operation leaves, or `Hid`; and where the case tells entries, whether the list
//!   prunes them.
//! - `least`: entries and an operation. Compared are the spelling of the least list for it, and the digest of what it
//!   leaves of that where the author's next number becomes 7.
//! - `bytes`: bytes at `spellings`, and then at `no_spellings`. Compared is that they spell a tree and are written of
//!   it again, or spell none; of a list, where the document has `changes` or `least` and no part of trees.
//!
//! For each part it writes the index of each case that differs, from 0, a line each, and then
//! `PART N cases, D differ`. Its status is 0 where none differs, 1 where one does, and 2 where the document or a case
//! is malformed. It leaves a part that it doesn't know.
#![tactic(auto)]

use serde_json::Value;
use std::process::ExitCode;
use vector_cases::{DocumentFault, compare, read_document, status};

mod changes;
mod clashes;
mod histories;
mod least;
mod spellings;
mod trees;
mod words;

fn main(rt: HostRuntime) -> ExitCode {
    let differ = compared(&rt);
    ExitCode::from(status(&rt, differ))
}

/// How many cases differ.
fn compared(rt: &HostRuntime) -> Result<u64, DocumentFault> {
    let document = read_document(rt.alloc(), &mut rt.reader())?;
    let trees = compared_trees(rt, &document)?;
    let lists = compared_lists(rt, &document)?;
    let bytes = spellings::compare(rt, rt.alloc(), &document)?;
    Ok(trees.saturating_add(lists).saturating_add(bytes))
}

fn compared_trees(rt: &HostRuntime, document: &Value) -> Result<u64, DocumentFault> {
    let alloc = rt.alloc();
    let trees = compare(rt, alloc, document, "trees", &mut trees::Trees)?;
    let prunings = compare(rt, alloc, document, "prunings", &mut histories::Prunings)?;
    let parts = compare(rt, alloc, document, "parts", &mut histories::Parts)?;
    let clashes = compare(rt, alloc, document, "short_clashes", &mut clashes::Clashes)?;
    Ok(
        trees
            .saturating_add(prunings)
            .saturating_add(parts)
            .saturating_add(clashes),
    )
}

fn compared_lists(rt: &HostRuntime, document: &Value) -> Result<u64, DocumentFault> {
    let alloc = rt.alloc();
    let changes = compare(rt, alloc, document, "changes", &mut changes::Changes)?;
    let least = compare(rt, alloc, document, "least", &mut least::Least)?;
    Ok(changes.saturating_add(least))
}
