//! Steps of a client that are about keys.

use client_core::Client;
use fr_digest::Sha;
use op_types::read_op;
use serde_json::Value;
use std::alloc::Global;
use vector_cases::{CaseFault, bytes_at, field, flag_at, is_bytes_or_null, word_at};

// What the client makes of the changes of an access list.
fn learnt(
    alloc: Global,
    client: &mut Client<Sha>,
    wall: u32,
    reply: &[u8],
) -> Result<&'static str, CaseFault> {
    if !client.is_ready(wall) {
        return Err(CaseFault::NoValue("a wall that the client has"));
    }
    match client.take_keys(alloc, wall, reply) {
        Ok(()) => Ok("Changes"),
        Err(verdict) => Ok(verdict.name()),
    }
}

// Whether the client needs keys, and asks for them, as a step says.
fn is_requested(
    alloc: Global,
    client: &Client<Sha>,
    wall: u32,
    step: &Value,
) -> Result<bool, CaseFault> {
    let request = bytes_at(alloc, step, "request")?;
    let needs = flag_at(step, "needs")?;
    if !client.is_ready(wall) {
        return Err(CaseFault::NoValue("a wall that the client has"));
    }
    let asked = client.keys_request(alloc, wall)?;
    Ok(client.needs_keys(wall) == needs && asked.as_slice() == request.as_slice())
}

/// Whether the client asks for the changes of the access list, and learns them, as a step says.
pub fn is_keys(
    alloc: Global,
    client: &mut Client<Sha>,
    wall: u32,
    step: &Value,
) -> Result<bool, CaseFault> {
    let reply = bytes_at(alloc, step, "reply")?;
    let same = is_requested(alloc, client, wall, step)?;
    let answer = learnt(alloc, client, wall, reply.as_slice())?;
    Ok(same && answer == word_at(step, "answer")?)
}

/// Whether the client reads of an operation what a step says.
pub fn is_read(alloc: Global, client: &Client<Sha>, step: &Value) -> Result<bool, CaseFault> {
    let bytes = bytes_at(alloc, step, "op")?;
    let Ok(op) = read_op(alloc, bytes.as_slice()) else {
        return Err(CaseFault::NoValue("an operation"));
    };
    let text = client.read_body(alloc, &op)?;
    let found = match &text {
        Some(text) => Some(text.as_slice()),
        None => None,
    };
    is_bytes_or_null(alloc, found, field(step, "text")?)
}
