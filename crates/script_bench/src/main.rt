//! Reads a script of 4,194,304 bytes, the most that a script has, and prints reports of runs of it: two users post 1,024
//! texts of 1,024 bytes each, each post shows itself, and a line serves a branch to a million users. Prints how many
//! bytes were read, and how many the reports of half of the commands and of all of them have. With a word, `times`, it
//! prints nanoseconds too: of `serde_json`'s reading of the bytes to its value, of the script's, and of the reports.
#![tactic(auto)]

use anyhow::{Context, Result};
use script_form::{Script, read_script, report};
use serde_json::Value;
use std::alloc::Global;
use std::time::Instant;

mod made;

use made::{EACH, made_run, made_script};

/// Nanoseconds of the reading of the bytes to a value, which is let go.
fn time_json(rt: &HostRuntime, alloc: Global, bytes: &[u8]) -> Result<u128> {
    let begin = Instant::now(rt)?;
    let value = Value::from_slice(alloc, bytes).ok().context("no JSON")?;
    drop(value);
    Ok(begin.elapsed(rt)?.as_nanos())
}

/// The script that the bytes spell, and the nanoseconds of its reading.
fn time_script(rt: &HostRuntime, alloc: Global, bytes: &[u8]) -> Result<(Script, u128)> {
    let begin = Instant::now(rt)?;
    let script = read_script(alloc, bytes).ok().context("no script")?;
    Ok((script, begin.elapsed(rt)?.as_nanos()))
}

/// The bytes of the report of so many of each user's commands, and the nanoseconds of its writing.
fn time_report(
    rt: &HostRuntime,
    alloc: Global,
    script: &Script,
    each: u32,
) -> Result<(usize, u128)> {
    let run = made_run(alloc, each).ok().context("memory is wanting")?;
    let begin = Instant::now(rt)?;
    let text = report(alloc, script, &run).ok().context("no report")?;
    Ok((text.len(), begin.elapsed(rt)?.as_nanos()))
}

/// What was measured: bytes, and nanoseconds.
#[derive(Drop)]
struct Measures {
    bytes: usize,
    json: u128,
    script: u128,
    half: (usize, u128),
    whole: (usize, u128),
}

/// Reads the script, and writes the reports of half of its commands and of all of them.
fn measure(rt: &HostRuntime, alloc: Global) -> Result<Measures> {
    let bytes = made_script(alloc).ok().context("memory is wanting")?;
    let json = time_json(rt, alloc, &bytes)?;
    let (read, script) = time_script(rt, alloc, &bytes)?;
    let half = time_report(rt, alloc, &read, EACH / 2)?;
    let whole = time_report(rt, alloc, &read, EACH)?;
    Ok(Measures {
        bytes: bytes.len(),
        json,
        script,
        half,
        whole,
    })
}

fn tell_bytes(rt: &HostRuntime, m: &Measures) -> Result<()> {
    println!(rt; "script bytes {}", m.bytes)?;
    println!(rt; "reports bytes {} {}", m.half.0, m.whole.0)?;
    Ok(())
}

fn tell_times(rt: &HostRuntime, m: &Measures) -> Result<()> {
    println!(rt; "json nanoseconds {}", m.json)?;
    println!(rt; "script nanoseconds {}", m.script)?;
    println!(rt; "reports nanoseconds {} {}", m.half.1, m.whole.1)?;
    Ok(())
}

fn main(rt: HostRuntime) -> Result<()> {
    let alloc = rt.alloc();
    let words: Vec<String> = std::env::args(&rt)?.collect(alloc)?;
    let measures = measure(&rt, alloc)?;
    tell_bytes(&rt, &measures)?;
    if words.len() > 1 {
        tell_times(&rt, &measures)?;
    }
    Ok(())
}
