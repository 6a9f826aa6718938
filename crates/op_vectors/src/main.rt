//! Compares operations, leaves and views with lines that an independent program wrote. The parts of a line
//! stand between bars; a line is one of
//!
//! | line | what is compared |
//! |---|---|
//! | `op|FIELDS|BYTES|MESSAGE` | the fields that are read from the bytes, the bytes that are written of it again, and what its author signs |
//! | `leaf|AFTER|EPOCH|BYTES` | the same of a leaf, and the operation within its bytes |
//! | `no_op|BYTES`, `no_leaf|BYTES` | that the bytes spell none |
//! | `view|WALL|SIZE|ROOT|MESSAGE` | what a server signs |
//!
//! where bytes are in hexadecimal digits, `-` is none of them, and ` #` begins a remark. For each line it
//! prints `same` or `differs`, at the end how many lines there were and how many leaves were kept with their
//! texts. It fails where a line differs.
#![tactic(auto)]

use anyhow::{Context, Result, anyhow};
use compare::Comparison;
use std::io::{BufRead, BufReader};

mod compare;
mod fields;

fn main(rt: HostRuntime) -> Result<()> {
    let alloc = rt.alloc();
    let mut comparison = Comparison::new(alloc);
    let mut lines = 0u64;
    let mut differ = 0u64;
    for line in BufReader::new(alloc, rt.reader())?.lines(alloc) {
        let same = comparison.is_same(line?.as_str())?;
        println!(rt; "{}", if same { "same" } else { "differs" })?;
        lines = lines.saturating_add(1);
        differ = differ.saturating_add(if same { 0 } else { 1 });
    }
    let kept = comparison.kept().context("the leaves were not kept alike")?;
    println!(rt; "{lines} lines, {differ} differ, {kept} leaves kept")?;
    if differ > 0 {
        return Err(anyhow!("a line differs"));
    }
    Ok(())
}
