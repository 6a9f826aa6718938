//! Calls of the program over edges in memory, and what each came to.
//!
//! Standard input is a JSON list of objects. Each has at `words` the list of words behind the program's name, and at `script`
//! the text that the source holds, which with `pad` is filled with spaces to so many bytes. It may have at `edges` an
//! object of `source` and `sink`, each with the most bytes of a call (`piece`) and the numbers of the calls that fail
//! (`fails`); and at `wires` an object of sessions' numbers, from 1: at each of them `lose` is a list of carries that are
//! lost, and `replace` an object of carries with the bytes, in hexadecimal digits, that they deliver in place of the reply.
//! Calls and carries are counted from 1, carries over all phases.
//!
//! For each it writes a line `run I status S bytes N`, I from 0, then the N bytes that were written to the sink, and a
//! newline.
#![tactic(auto)]

mod edges;
mod fields;
mod wires;

use anyhow::{Context, Result};
use edges::{sink_of, source_of};
use fields::words_of;
use fr_edges::MemSink;
use frient_run::run_frient;
use serde_json::Value;
use std::alloc::Global;
use std::io::Read;
use std::sync::Wait;
use std::thread::Threads;
use wires::wires_of;

fn main(rt: HostRuntime) -> Result<()> {
    let alloc = rt.alloc();
    let list = read_list(alloc, &mut rt.reader())?;
    let rows = list.as_array().context("the input is no list")?;
    for (place, row) in rows.iter().enumerate() {
        let called = call(&rt, alloc, row)?;
        tell(&rt, place, &called)?;
    }
    Ok(())
}

/// The JSON value of an input.
fn read_list<R: Read>(alloc: Global, input: &mut R) -> Result<Value> {
    let mut bytes = Vec::new(alloc);
    input
        .read_to_end(&mut bytes)
        .ok()
        .context("the input can't be read")?;
    Value::from_slice(alloc, &bytes)
        .ok()
        .context("the input is no JSON")
}

/// What a call came to.
#[derive(Drop)]
struct Called {
    status: u8,
    sink: MemSink,
}

/// The call that an object tells of.
fn call<R: Threads + Wait + Sync>(rt: &R, alloc: Global, row: &Value) -> Result<Called> {
    let words = words_of(alloc, row.get("words"))?;
    let mut source = source_of(alloc, row)?;
    let mut sink = sink_of(alloc, row)?;
    let mut wires = wires_of(alloc, row.get("wires"))?;
    let ended = run_frient(rt, alloc, &words, &mut source, &mut sink, &mut wires);
    Ok(Called {
        status: ended.status,
        sink,
    })
}

fn tell(rt: &HostRuntime, place: usize, called: &Called) -> Result<()> {
    let written = called.sink.written();
    println!(rt;
        "run {place} status {} bytes {}",
        called.status,
        written.len()
    )?;
    rt.write_all(written)?;
    println!(rt; "")?;
    Ok(())
}
