//! Checks a reply that shows so many posts from the first on, each of which embeds the view of the ones before it, and
//! prints how many leaves the client takes. With a second word, `times`, it prints nanoseconds too: of the check, of the
//! verifications alone that it makes, one of each operation's signature and one of each view's, and of counting who
//! vouches among so many operations of as many users.
#![tactic(auto)]

ghost use Rattle.std.specs.Prelude.{◌≤◌, IfOk};

use anyhow::{Context, Result};
use check_core::{Asked, Checked, Known, check};
use fr_bytes::Sequence;
use fr_digest::Sha;
use lms_tree::UserKeys;
use op_types::read_op;
use signed_ops::{is_author_signed, is_view_signed};
use std::alloc::Global;
use std::time::Instant;
use vouch_rule::{Vouch, vouchers};

mod made;

use made::{Made, USER, WALL, make_reply};

/// How many posts there may be, and how many there are without a word.
const MOST: u32 = 1_024;

const FEW: u32 = 64;

fn keys(alloc: Global, made: &Made) -> Result<UserKeys> {
    Ok(Sequence::of(Vec::from_array(alloc, [(USER, made.user)])?))
}

/// A client that has accepted nothing.
fn newcomer(alloc: Global, made: &Made) -> Result<Known>
    ensures { IfOk result (λ known. known.f ≤ 31) }
{
    Ok(Known {
        wall: WALL,
        owner: USER,
        f: 0,
        server: made.server,
        users: keys(alloc, made)?,
        size: 0,
        root: [0; 32],
        epoch: 0,
    })
}

/// How many leaves the client takes, and the nanoseconds of the check.
fn time_check(rt: &HostRuntime, alloc: Global, made: &Made) -> Result<(usize, u128)> {
    let known = newcomer(alloc, made)?;
    let begin = Instant::now(rt)?;
    let checked = check::<Sha>(alloc, &known, &Asked::Look, &made.reply)
        .ok()
        .context("the reply is rejected")?;
    let time = begin.elapsed(rt)?.as_nanos();
    match checked {
        Checked::Taken { leaves, .. } => Ok((leaves.len(), time)),
        _ => Ok((0, time)),
    }
}

/// How many signatures of an operation are valid, its author's and that of the view that it embeds, and the nanoseconds
/// of their verifications.
fn time_one(
    rt: &HostRuntime,
    alloc: Global,
    made: &Made,
    keys: &UserKeys,
    bytes: &[u8],
) -> Result<(u32, u128)> {
    let Ok(op) = read_op(alloc, bytes) else {
        return Err(anyhow::Error::msg("no operation"));
    };
    let begin = Instant::now(rt)?;
    let Ok(signed) = is_author_signed(alloc, keys, &op) else {
        return Err(anyhow::Error::msg("memory is wanting"));
    };
    let seen = is_view_signed(&made.server, &op.view);
    Ok((signed as u32 + seen as u32, begin.elapsed(rt)?.as_nanos()))
}

/// The same of all operations.
fn time_verifications(rt: &HostRuntime, alloc: Global, made: &Made) -> Result<(u32, u128)> {
    let keys = keys(alloc, made)?;
    let mut valid: u32 = 0;
    let mut time: u128 = 0;
    for bytes in &made.ops {
        let (of_one, took) = time_one(rt, alloc, made, &keys, bytes)?;
        valid = valid.wrapping_add(of_one);
        time = time.wrapping_add(took);
    }
    Ok((valid, time))
}

/// How many vouch among so many operations of as many users, all of whom do, and the nanoseconds of their count: this is
/// where the count takes longest.
fn time_vouchers(rt: &HostRuntime, alloc: Global, count: u32) -> Result<(u32, u128)> {
    let mut ops = Vec::new(alloc);
    for author in 0..count {
        ops.push(Vouch { author, size: 1 })?;
    }
    if ops.len() > MOST as usize {
        return Err(anyhow::Error::msg("too many operations"));
    }
    let begin = Instant::now(rt)?;
    let found = vouchers(&ops, 1);
    Ok((found, begin.elapsed(rt)?.as_nanos()))
}

/// How many posts the first word says, and whether there is a second one.
fn words(rt: &HostRuntime, alloc: Global) -> Result<(u32, bool)> {
    let words: Vec<String> = std::env::args(rt)?.collect(alloc)?;
    let count = match words.get(1) {
        None => FEW,
        Some(word) => word.parse::<u32>().ok().context("no number")?,
    };
    Ok((count.clamp(1, MOST), words.len() > 2))
}

fn main(rt: HostRuntime) -> Result<()> {
    let alloc = rt.alloc();
    let (count, times) = words(&rt, alloc)?;
    let made = make_reply(alloc, count)?;
    let (taken, check) = time_check(&rt, alloc, &made)?;
    let (valid, verifications) = time_verifications(&rt, alloc, &made)?;
    println!(rt; "taken {taken} valid {valid}")?;
    if times {
        let (found, vouching) = time_vouchers(&rt, alloc, count)?;
        println!(rt; "check {check} verifications {verifications} vouchers {found} in {vouching}")?;
    }
    Ok(())
}
