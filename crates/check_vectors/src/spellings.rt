ghost use Rattle.msg_form.specs.Messages.{SpellsReply, SpellsRequest};

use crate::messages::{reply_of, request_of};
use fr_bytes::ReadRefusal;
use msg_form::{Reply, Request, read_reply, read_request, write_reply, write_request};
use serde_json::Value;
use std::alloc::Global;
use vector_cases::{CaseFault, Cases, bytes_at};

/// Messages by their fields, with their bytes.
#[derive(Drop)]
pub struct Spellings;

impl Cases for Spellings {
    fn is_same(&mut self, alloc: Global, case: &Value) -> Result<bool, CaseFault> {
        let bytes = bytes_at(alloc, case, "bytes")?;
        if case.get("request").is_some() {
            return is_request(alloc, case, bytes.as_slice());
        }
        is_reply(alloc, case, bytes.as_slice())
    }
}

fn is_request_written(alloc: Global, found: &Request, bytes: &[u8]) -> Result<bool, CaseFault>
    requires { SpellsRequest found.now bytes.now }
{
    Ok(write_request(alloc, found)?.as_slice() == bytes)
}

fn is_request(alloc: Global, case: &Value, bytes: &[u8]) -> Result<bool, CaseFault> {
    let wanted = request_of(alloc, case)?;
    match read_request(alloc, bytes) {
        Ok(found) => Ok(found == wanted && is_request_written(alloc, &found, bytes)?),
        Err(ReadRefusal::NotForm) => Ok(false),
        Err(ReadRefusal::NoMemory) => Err(CaseFault::NoMemory),
    }
}

fn is_reply_written(alloc: Global, found: &Reply, bytes: &[u8]) -> Result<bool, CaseFault>
    requires { SpellsReply found.now bytes.now }
{
    Ok(write_reply(alloc, found)?.as_slice() == bytes)
}

fn is_reply(alloc: Global, case: &Value, bytes: &[u8]) -> Result<bool, CaseFault> {
    let wanted = reply_of(alloc, case)?;
    match read_reply(alloc, bytes) {
        Ok(found) => Ok(found == wanted && is_reply_written(alloc, &found, bytes)?),
        Err(ReadRefusal::NotForm) => Ok(false),
        Err(ReadRefusal::NoMemory) => Err(CaseFault::NoMemory),
    }
}

/// Bytes that spell no message.
#[derive(Drop)]
pub struct NoSpellings;

impl Cases for NoSpellings {
    fn is_same(&mut self, alloc: Global, case: &Value) -> Result<bool, CaseFault> {
        if case.get("request").is_some() {
            return is_no_request(alloc, bytes_at(alloc, case, "request")?.as_slice());
        }
        is_no_reply(alloc, bytes_at(alloc, case, "reply")?.as_slice())
    }
}

fn is_no_request(alloc: Global, bytes: &[u8]) -> Result<bool, CaseFault> {
    match read_request(alloc, bytes) {
        Ok(_) => Ok(false),
        Err(ReadRefusal::NotForm) => Ok(true),
        Err(ReadRefusal::NoMemory) => Err(CaseFault::NoMemory),
    }
}

fn is_no_reply(alloc: Global, bytes: &[u8]) -> Result<bool, CaseFault> {
    match read_reply(alloc, bytes) {
        Ok(_) => Ok(false),
        Err(ReadRefusal::NotForm) => Ok(true),
        Err(ReadRefusal::NoMemory) => Err(CaseFault::NoMemory),
    }
}
