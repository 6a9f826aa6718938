//! Makes a pruned history tree that shows all of its 1,024 leaves, takes the root of each of its versions from kept
//! digests, and prints how many roots there are. With a word, `times`, it prints nanoseconds too: of the digests of the
//! whole tree, and of all the roots.
//!
//! A leaf has 4,800 bytes, no more than one of an operation that is signed by a key of height 5, with one-time signatures
//! of width 4, and embeds a view that is signed by a key of height 6.
#![tactic(auto)]

ghost use Rattle.std.specs.Prelude.{◌≤◌};

use anyhow::{Context, Result};
use fr_bytes::{Bytes, NoMemory};
use fr_digest::Sha;
use hist_proof::{DigestedTree, Pruned};
use std::alloc::Global;
use std::time::Instant;

/// How many levels stand above a leaf.
const LEVELS: u32 = 10;

/// How many leaves there are.
const LEAVES: u64 = 1_024;

/// How many bytes a leaf has.
const LEAF_BYTES: usize = 4_800;

/// A tree of so many levels that shows all of its leaves.
fn shown(alloc: Global, levels: u32) -> Result<Pruned, NoMemory> {
    if levels == 0 {
        let text = vec![in alloc; 0u8; LEAF_BYTES]?;
        return Ok(Pruned::Leaf(Bytes::of(text)));
    }
    let left = Box::new(alloc, shown(alloc, levels - 1)?)?;
    let right = Box::new(alloc, shown(alloc, levels - 1)?)?;
    Ok(Pruned::Node(left, right))
}

/// How many versions have a root.
fn roots(tree: &DigestedTree<Sha>) -> u64 {
    let mut found: u64 = 0;
    for version in 1..LEAVES + 1 {
        found = found.saturating_add(u64::from(tree.digest_at(version).is_some()));
    }
    found
}

fn main(rt: HostRuntime) -> Result<()> {
    let alloc = rt.alloc();
    let words: Vec<String> = std::env::args(&rt)?.collect(alloc)?;
    let pruned = shown(alloc, LEVELS).ok().context("memory is wanting")?;
    let begin = Instant::now(&rt)?;
    let tree = DigestedTree::new(alloc, pruned, LEAVES)
        .ok()
        .flatten()
        .context("no tree was made")?;
    let made = begin.elapsed(&rt)?.as_nanos();
    let begin = Instant::now(&rt)?;
    let found = roots(&tree);
    let taken = begin.elapsed(&rt)?.as_nanos();
    println!(rt; "roots {found}")?;
    if words.len() > 1 {
        println!(rt; "tree nanoseconds {made}")?;
        println!(rt; "versions nanoseconds {taken}")?;
    }
    Ok(())
}
