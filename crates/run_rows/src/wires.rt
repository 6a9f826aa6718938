//! Wires in memory, as an object tells them.
ghost use Rattle.std.specs.Prelude.{◌≡◌, length, IfOk};

use crate::fields::numbers_of;
use anyhow::{Context, Result};
use fr_bytes::Bytes;
use fr_edges::MemWire;
use serde_json::{Map, Value};
use std::alloc::Global;

fn bytes_of(alloc: Global, digits: &Value) -> Result<Bytes> {
    let digits = digits.as_str().context("a delivery is no text")?;
    let bytes = hex::decode(alloc, digits)
        .ok()
        .context("a delivery isn't in hexadecimal digits")?;
    Ok(Bytes::of(bytes))
}

// The place of a carry whose number is written so.
fn place_of(number: &str) -> Result<usize> {
    let number: usize = number.parse().ok().context("a carry is no number")?;
    number.checked_sub(1).context("carries count from 1")
}

// Puts a delivery in its place.
fn put(replies: &mut Vec<Option<Bytes>>, place: usize, delivery: Bytes) -> Result<()> {
    let missing = place.saturating_add(1).saturating_sub(replies.len());
    for _ in 0..missing {
        replies.push(None)?;
    }
    let Some(slot) = replies.get_mut(place) else {
        return Err(anyhow::Error::msg("a carry is too great"));
    };
    *slot = Some(delivery);
    Ok(())
}

// The deliveries that come in the place of replies.
fn replaced(alloc: Global, object: Option<&Value>) -> Result<Vec<Option<Bytes>>> {
    let mut replies = Vec::new(alloc);
    let Some(object) = object else {
        return Ok(replies);
    };
    for (number, digits) in object.as_object().context("`replace` is no object")? {
        put(
            &mut replies,
            place_of(number.as_str())?,
            bytes_of(alloc, digits)?,
        )?;
    }
    Ok(replies)
}

// The wire of a session.
fn wire_of(alloc: Global, told: Option<&Value>) -> Result<MemWire> {
    let Some(told) = told else {
        return Ok(MemWire::new(alloc, Vec::new(alloc), Vec::new(alloc)));
    };
    let lost = numbers_of(alloc, told.get("lose"))?;
    let replaced = replaced(alloc, told.get("replace"))?;
    Ok(MemWire::new(alloc, replaced, lost))
}

/// The wires of 16 sessions; one that isn't told of is straight.
///
/// # Errors
/// Where what is told has another form, or memory is wanting.
pub fn wires_of(alloc: Global, told: Option<&Value>) -> Result<Vec<MemWire>>
    ensures { IfOk result (λ found. length found.items ≡ 16) }
{
    let mut found = Vec::new(alloc);
    for session in 1..17u32 {
        let number = format!(in alloc; "{session}")?;
        let wire = wire_of(alloc, told.and_then(|object| object.get(number.as_str())))?;
        found.push(wire)?;
    }
    Ok(found)
}
