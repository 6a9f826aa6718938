//! Judges lines of LMS signatures. A line has two typecodes, `valid` or `invalid`, a key, a message, a
//! signature, and the identifier, the seed and the index that the signature was made with, where they
//! are known; bytes are in hexadecimal digits, `-` is none of them, and ` #` begins a remark. For each
//! line it prints what `verify` finds, with ` differs` where the line says otherwise or where a signer
//! makes another signature. It ends with status 0 where no line differs. It ends with status 1 where one
//! does, and at the first line that has another form, whose number it tells.
#![tactic(auto)]

use anyhow::{Result, anyhow};
use std::io::{BufRead, BufReader};
use std::process::ExitCode;

mod judge;
mod vector;

fn main(rt: HostRuntime) -> Result<ExitCode> {
    let alloc = rt.alloc();
    let mut lines = 0u64;
    let mut differ = 0u64;
    for line in BufReader::new(alloc, rt.reader())?.lines(alloc) {
        let line = line?;
        lines = lines.saturating_add(1);
        let verdict = match judge::verdict_of(alloc, line.as_str()) {
            Ok(verdict) => verdict,
            Err(cause) => return Err(anyhow!("line {lines}: {cause}")),
        };
        println!(rt; "{}", verdict.word())?;
        if verdict.differs {
            differ = differ.saturating_add(1);
        }
    }
    println!(rt; "{lines} lines, {differ} differ")?;
    Ok(ExitCode::from((differ > 0) as u8))
}
