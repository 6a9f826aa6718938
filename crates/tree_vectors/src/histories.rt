ghost use Rattle.std.specs.Prelude.{◌≡◌, ◌%◌, ◌^◌, IsTrue};

use crate::words::is_tree;
use fr_bytes::{Bytes, NoMemory};
use fr_digest::{Dig, Sha};
use hist_tree::Hist;
use serde_json::Value;
use std::alloc::Global;
use tree_model::{HasText, depth_of, left_leaves};
use tree_prune::{prune, prune_at};
use vector_cases::{CaseFault, Cases, dig_at, field, list_at, number_at, number_of, small_at};

/// An item that is its text.
#[derive(Drop)]
struct Line {
    text: Bytes,
}

impl HasText for Line {
    ghost text_of = { λ line. line.text };

    fn text(&self) -> &[u8] {
        self.text.as_slice()
    }
}

/// The history of the texts `t0`, `t1`, ..
fn history(alloc: Global, texts: u64) -> Result<Hist<Sha, Line>, NoMemory> {
    let mut hist = Hist::empty(alloc);
    for i in 0..texts {
        let text = Bytes::of(format!(in alloc; "t{i}")?.into_bytes());
        hist = hist.append(Line { text })?;
    }
    Ok(hist)
}

fn history_at(alloc: Global, case: &Value) -> Result<Hist<Sha, Line>, CaseFault> {
    Ok(history(alloc, number_at(case, "texts")?)?)
}

fn numbers_at(alloc: Global, case: &Value, name: &'static str) -> Result<Vec<u64>, CaseFault> {
    let mut numbers = Vec::new(alloc);
    for value in list_at(case, name)? {
        numbers.push(number_of(value)?)?;
    }
    Ok(numbers)
}

/// The least trees of a version of a history.
#[derive(Drop)]
pub struct Prunings;

impl Cases for Prunings {
    fn is_same(&mut self, alloc: Global, case: &Value) -> Result<bool, CaseFault> {
        let hist = history_at(alloc, case)?;
        Ok(shows_rest(alloc, &hist, case)? && shows_positions(alloc, &hist, case)?)
    }
}

fn shows_rest(alloc: Global, hist: &Hist<Sha, Line>, case: &Value) -> Result<bool, CaseFault> {
    let size = number_at(case, "size")?;
    let from = number_at(case, "from")?;
    let versions = numbers_at(alloc, case, "versions")?;
    if size > hist.size() || from >= size {
        return Err(CaseFault::NoValue("a position of a version"));
    }
    let found = prune(alloc, hist, size, from, versions.as_slice())?;
    is_tree(alloc, Some(found), field(case, "prune")?)
}

fn shows_positions(alloc: Global, hist: &Hist<Sha, Line>, case: &Value) -> Result<bool, CaseFault> {
    let size = number_at(case, "size")?;
    let positions = numbers_at(alloc, case, "positions")?;
    if size == 0 || size > hist.size() {
        return Err(CaseFault::NoValue("a version"));
    }
    let found = prune_at(alloc, hist, size, positions.as_slice())?;
    is_tree(alloc, Some(found), field(case, "prune_at")?)
}

/// The digests of nodes of a version of a history.
#[derive(Drop)]
pub struct Parts;

impl Cases for Parts {
    fn is_same(&mut self, alloc: Global, case: &Value) -> Result<bool, CaseFault> {
        let hist = history_at(alloc, case)?;
        is_part(&hist, case)
    }
}

fn is_part(hist: &Hist<Sha, Line>, case: &Value) -> Result<bool, CaseFault> {
    let size = number_at(case, "size")?;
    let level = small_at(case, "level")?;
    let start = number_at(case, "start")?;
    let wanted = dig_at(case, "part")?;
    match part_of(hist, size, level, start) {
        Some(part) => Ok(part == wanted),
        None => Err(CaseFault::NoValue("a node of a version")),
    }
}

/// The digest of a node of a version, where the version has the node.
fn part_of(hist: &Hist<Sha, Line>, size: u64, level: u32, start: u64) -> Option<Dig> {
    if size > hist.size() || start >= size {
        return None;
    }
    if level > depth_of(size) || !is_aligned(start, level) {
        return None;
    }
    Some(hist.part(size, level, start))
}

/// Whether the positions of a node of this height may begin at `start`.
fn is_aligned(start: u64, level: u32) -> bool
    ensures { IsTrue result → start % 2 ^ level ≡ 0 }
{
    if level >= 64 {
        return false;
    }
    let leaves = left_leaves(level + 1) as u64;
    start % leaves == 0
}
