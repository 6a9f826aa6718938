//! Has a client that has accepted nothing take a reply that shows so many posts from the first on, each of which embeds
//! the view of the ones before it, and prints how many leaves the check of the reply takes and how many the client does.
//! With a second word, `times`, it prints the nanoseconds of both too.
#![tactic(auto)]

use anyhow::{Context, Result};
use check_core::{Asked, Checked, check};
use client_core::News;
use fr_digest::Sha;
use std::alloc::Global;
use std::time::Instant;

mod clients;
mod made;

use clients::{WallKeys, look, reader, signer, take};
use made::{Made, make_reply};

/// How many posts there may be, and how many there are without a word.
const MOST: u32 = 1_024;

const FEW: u32 = 64;

/// How many leaves the check takes, and its nanoseconds.
fn time_check(rt: &HostRuntime, alloc: Global, made: &Made) -> Result<(usize, u128)> {
    let known = made.keys.known(alloc)?;
    let begin = Instant::now(rt)?;
    let checked = check::<Sha>(alloc, &known, &Asked::Look, made.reply.as_slice())
        .ok()
        .context("the reply is rejected")?;
    let time = begin.elapsed(rt)?.as_nanos();
    match checked {
        Checked::Taken { leaves, .. } => Ok((leaves.len(), time)),
        _ => Ok((0, time)),
    }
}

/// How many leaves a client takes that has accepted nothing, and the nanoseconds that this takes.
fn time_take(rt: &HostRuntime, alloc: Global, made: &Made) -> Result<(usize, u128)> {
    let signer = signer(alloc, 5, 2)?;
    let keys = WallKeys {
        reader: signer.public(),
        ..made.keys
    };
    let mut client = reader::<Sha>(alloc, signer, &keys)?;
    let sent = look(alloc, &client, true)?;
    let begin = Instant::now(rt)?;
    let news = take(alloc, &mut client, &sent, made.reply.as_slice())?;
    let time = begin.elapsed(rt)?.as_nanos();
    match news {
        News::Took { leaves, .. } => Ok((leaves.len(), time)),
        _ => Ok((0, time)),
    }
}

/// How many posts the first word says, and whether there is a second one.
fn words(rt: &HostRuntime, alloc: Global) -> Result<(u32, bool)> {
    let words: Vec<String> = std::env::args(rt)?.collect(alloc)?;
    let count = match words.get(1) {
        None => FEW,
        Some(word) => word.parse::<u32>().ok().context("no number")?,
    };
    Ok((count.clamp(1, MOST), words.len() > 2))
}

fn main(rt: HostRuntime) -> Result<()> {
    let alloc = rt.alloc();
    let (count, times) = words(&rt, alloc)?;
    let made = make_reply::<Sha, HostRuntime>(&rt, alloc, count)?;
    // The first check finds the caches cold, and isn't told.
    time_check(&rt, alloc, &made)?;
    let (shown, check) = time_check(&rt, alloc, &made)?;
    let (taken, take) = time_take(&rt, alloc, &made)?;
    println!(rt; "shown {shown} taken {taken}")?;
    if times {
        println!(rt; "check {check} take {take}")?;
    }
    Ok(())
}
