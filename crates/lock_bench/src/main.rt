//! Runs callers at once on one hall of texts, behind the turn lock and behind std's `Mutex`, and prints how many
//! calls each hall has at the end. With a word, `times`, it prints nanoseconds instead, of time and of processor
//! time: 2, 4, 8 and 16 threads make 20,000 short turns each, and 200 turns of about 50 microseconds each.
#![tactic(auto)]

ghost use Rattle.std.specs.Prelude.{◌≢◌, ◌<◌, length, IfOk};
ghost use Rattle.std.specs.List.{AllPairs};

mod clocks;
mod runs;

use anyhow::{Context, Result};
use clocks::{Begin, Spent, length_of};
use runs::{at_gate, at_mutex};
use std::alloc::{AllocError, Global};
use std::sync::Wait;
use std::thread::Threads;
use std::time::{Clock, CpuClock};
use text_hall::Numbers;

// How long a turn of work takes, in nanoseconds.
const WORK: u128 = 50_000;

// What each caller of a run without times writes.
const FEW: Numbers = Numbers {
    first: 0,
    many: 500,
    padding: 0,
};

const SHORT: Numbers = Numbers {
    first: 0,
    many: 20_000,
    padding: 0,
};

// What is printed of a run.
#[derive(Clone, Copy)]
enum Kind {
    Counts,
    Times(&'static str),
}

// The turns at the turn lock.
fn at_lock<R: Threads + Wait + Sync + Print + Clock + CpuClock>(
    rt: &R,
    alloc: Global,
    kind: Kind,
    callers: &[u32],
    numbers: Numbers,
) -> Result<()>
    requires some { 0 < length callers.now }
    requires apart { AllPairs (λ c d. c ≢ d) callers.now }
{
    let begin = Begin::now(rt)?;
    let calls = at_gate(rt, alloc, callers, numbers)
        .ok()
        .context("memory is wanting")?;
    let spent = begin.spent(rt)?;
    told(rt, kind, callers.len(), "gate", calls, spent)
}

// The same turns at the `Mutex`.
fn at_std<R: Threads + Wait + Sync + Print + Clock + CpuClock>(
    rt: &R,
    alloc: Global,
    kind: Kind,
    callers: &mut [u32],
    numbers: Numbers,
) -> Result<()> {
    let begin = Begin::now(rt)?;
    let calls = at_mutex(rt, alloc, callers, numbers);
    let spent = begin.spent(rt)?;
    told(rt, kind, callers.len(), "mutex", calls, spent)
}

// Prints a run.
fn told<R: Print>(
    rt: &R,
    kind: Kind,
    threads: usize,
    lock: &str,
    calls: u64,
    spent: Spent,
) -> Result<()> {
    match kind {
        Kind::Counts => println!(rt; "{threads} {lock} {calls}")?,
        Kind::Times(name) => {
            println!(rt;
                "{name} {threads} {lock} {calls} {} {}",
                spent.time, spent.processor
            )?
        }
    }
    Ok(())
}

// The turns of these callers at both locks.
fn both<R: Threads + Wait + Sync + Print + Clock + CpuClock>(
    rt: &R,
    alloc: Global,
    kind: Kind,
    callers: &mut [u32],
    numbers: Numbers,
) -> Result<()>
    requires some { 0 < length callers.old }
    requires apart { AllPairs (λ c d. c ≢ d) callers.old }
{
    at_lock(rt, alloc, kind, callers, numbers)?;
    at_std(rt, alloc, kind, callers, numbers)
}

// So many callers.
fn callers_of(alloc: Global, threads: u32) -> std::result::Result<Vec<u32>, AllocError>
    ensures { IfOk result (λ callers. AllPairs (λ c d. c ≢ d) callers.items) }
{
    let mut callers = Vec::new(alloc);
    for number in 0..threads {
        callers.push(number)?;
    }
    Ok(callers)
}

fn run<R: Threads + Wait + Sync + Print + Clock + CpuClock>(
    rt: &R,
    alloc: Global,
    kind: Kind,
    threads: u32,
    numbers: Numbers,
) -> Result<()> {
    let mut callers = callers_of(alloc, threads)?;
    if callers.is_empty() {
        return Ok(());
    }
    both(rt, alloc, kind, callers.as_mut_slice(), numbers)
}

fn main(rt: HostRuntime) -> Result<()> {
    let alloc = rt.alloc();
    let words: Vec<String> = std::env::args(&rt)?.collect(alloc)?;
    let is_timed = words.len() > 1;
    let work = Numbers {
        first: 0,
        many: 200,
        padding: length_of(&rt, alloc, WORK)?,
    };
    for (kind, numbers, threads) in [
        (Kind::Counts, FEW, 2),
        (Kind::Counts, FEW, 4),
        (Kind::Times("short"), SHORT, 2),
        (Kind::Times("short"), SHORT, 4),
        (Kind::Times("short"), SHORT, 8),
        (Kind::Times("short"), SHORT, 16),
        (Kind::Times("work"), work, 2),
        (Kind::Times("work"), work, 4),
        (Kind::Times("work"), work, 8),
        (Kind::Times("work"), work, 16),
    ] {
        if is_timed == matches!(kind, Kind::Times(_)) {
            run(&rt, alloc, kind, threads, numbers)?;
        }
    }
    Ok(())
}
