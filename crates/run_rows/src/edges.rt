//! The source and the sink of a call, as an object tells them.
ghost use Rattle.std.specs.Prelude.{◌≤◌, IfOk};

use crate::fields::numbers_of;
use anyhow::{Context, Result};
use fr_edges::{MemSink, MemSource};
use serde_json::Value;
use std::alloc::Global;

/// The most bytes of a call where an object tells none.
const PIECE: usize = 65_536;

// What is told of the edge of a name.
fn edge<'a>(row: &'a Value, name: &str) -> Option<&'a Value> {
    row.get("edges")?.get(name)
}

// The most bytes of a call.
fn piece_of(edge: Option<&Value>) -> Result<usize>
    ensures { IfOk result (λ piece. 1 ≤ piece) }
{
    let Some(told) = edge.and_then(|edge| edge.get("piece")) else {
        return Ok(PIECE);
    };
    let piece = told.as_u64().context("a piece is no number")?;
    if piece == 0 {
        return Err(anyhow::Error::msg("a piece is empty"));
    }
    usize::try_from(piece).ok().context("a piece is too great")
}

// The numbers of the calls that fail.
fn failing(alloc: Global, edge: Option<&Value>) -> Result<Vec<u32>> {
    numbers_of(alloc, edge.and_then(|edge| edge.get("fails")))
}

// The text of the script, with spaces to so many bytes.
fn bytes_of(alloc: Global, row: &Value) -> Result<Vec<u8>> {
    let script = row
        .get("script")
        .and_then(Value::as_str)
        .context("a script is no text")?;
    let mut bytes = script.as_bytes().to_vec(alloc)?;
    let pad = row.get("pad").and_then(Value::as_u64).unwrap_or(0);
    let len = usize::try_from(pad).ok().context("a pad is too great")?;
    bytes.resize(len.max(bytes.len()), b' ')?;
    Ok(bytes)
}

/// The source that holds an object's script.
///
/// # Errors
/// Where what is told has another form, or memory is wanting.
pub fn source_of(alloc: Global, row: &Value) -> Result<MemSource> {
    let edge = edge(row, "source");
    Ok(MemSource::new(
        bytes_of(alloc, row)?,
        piece_of(edge)?,
        failing(alloc, edge)?,
    ))
}

/// The sink of an object.
///
/// # Errors
/// Where what is told has another form, or memory is wanting.
pub fn sink_of(alloc: Global, row: &Value) -> Result<MemSink> {
    let edge = edge(row, "sink");
    Ok(MemSink::new(alloc, piece_of(edge)?, failing(alloc, edge)?))
}
