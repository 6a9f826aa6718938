//! Audits the world of one wall whose owner posts so often and takes each reply, and whose reader takes them all at
//! once, and prints how many records the audit counts and how many of them are grounded. With a second word, `times`,
//! it prints how many leaves there are and how many bytes they have, and nanoseconds: of the audit, of the digests of
//! all leaves' texts, and of as many signatures as there are posts.
#![tactic(auto)]

ghost use Rattle.world_book.specs.Kept.{Kept};

use anyhow::{Context, Result};
use audit_run::{Sound, audit};
use fr_digest::{Digester, Sha};
use hist_proof::leaf_at;
use std::alloc::Global;
use std::time::Instant;
use world_book::{Took, World};

mod made;
mod people;
mod wall;

use made::make_world;
use wall::signer;

/// How many posts there may be, as many as the writer can sign, and how many there are without a word.
const MOST: u32 = 1_024;

const FEW: u32 = 64;

/// The byte before a leaf's text in its digest.
const LEAF_TAG: u8 = 0;

/// What the audit counts, and its nanoseconds.
fn time_audit<D: Digester>(rt: &HostRuntime, alloc: Global, world: &World) -> Result<(Sound, u128)>
    requires { Kept D.digest_of world.now }
{
    let begin = Instant::now(rt)?;
    let found = audit::<D>(alloc, world)
        .ok()
        .context("the audit finds something")?;
    Ok((found, begin.elapsed(rt)?.as_nanos()))
}

/// The last user's last record, which shows all leaves.
fn whole(world: &World) -> Result<&Took> {
    let book = world.users.as_slice().last().context("no user")?;
    book.took.as_slice().last().context("no record")
}

/// The texts of the leaves that a record shows.
fn texts(alloc: Global, took: &Took) -> Result<Vec<&[u8]>> {
    let mut texts = Vec::new(alloc);
    for position in 0..took.size {
        texts.push(leaf_at(&took.proof, took.size, position).context("a leaf isn't shown")?)?;
    }
    Ok(texts)
}

/// How many bytes the texts have.
fn bytes_in(texts: &[&[u8]]) -> usize {
    let mut bytes = 0usize;
    for text in texts {
        bytes = bytes.saturating_add(text.len());
    }
    bytes
}

/// The nanoseconds of the leaves' digests, and one byte that all of them make.
fn time_digests<D: Digester>(rt: &HostRuntime, texts: &[&[u8]]) -> Result<(u128, u8)> {
    let mut all = 0;
    let begin = Instant::now(rt)?;
    for text in texts {
        all ^= D::tagged(LEAF_TAG, text, &[])[0];
    }
    Ok((begin.elapsed(rt)?.as_nanos(), all))
}

/// The nanoseconds of a signature of each text.
fn time_signatures(rt: &HostRuntime, alloc: Global, texts: &[&[u8]]) -> Result<u128> {
    let mut signer = signer(alloc, 6, 1)?;
    let begin = Instant::now(rt)?;
    for text in texts {
        signer.sign(text).ok().context("no signature was made")?;
    }
    Ok(begin.elapsed(rt)?.as_nanos())
}

/// Prints the times beside that of the audit.
fn tell_times(rt: &HostRuntime, alloc: Global, world: &World, audited: u128) -> Result<()> {
    let texts = texts(alloc, whole(world)?)?;
    let bytes = bytes_in(&texts);
    let (digested, all) = time_digests::<Sha>(rt, &texts)?;
    let signed = time_signatures(rt, alloc, &texts)?;
    println!(rt; "leaves {} bytes {bytes}", texts.len())?;
    println!(rt; "audit {audited} digests {digested} signatures {signed} of {all}")?;
    Ok(())
}

/// How many posts the first word says, and whether there is a second one.
fn words(rt: &HostRuntime, alloc: Global) -> Result<(u32, bool)> {
    let words: Vec<String> = std::env::args(rt)?.collect(alloc)?;
    let count = match words.get(1) {
        None => FEW,
        Some(word) => word.parse::<u32>().ok().context("no number")?,
    };
    Ok((count.clamp(1, MOST), words.len() > 2))
}

fn main(rt: HostRuntime) -> Result<()> {
    let alloc = rt.alloc();
    let (posts, times) = words(&rt, alloc)?;
    let world = make_world::<Sha, HostRuntime>(&rt, alloc, posts)?;
    let (found, audited) = time_audit::<Sha>(&rt, alloc, &world)?;
    println!(rt; "records {} grounded {}", found.records, found.grounded)?;
    if times {
        tell_times(&rt, alloc, &world, audited)?;
    }
    Ok(())
}
