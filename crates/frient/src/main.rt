//! The program `frient`: runs the script that standard input holds, or the generated one of a number, and writes the
//! report or the summary to standard output.
#![tactic(auto)]

ghost use Rattle.std.specs.Prelude.{◌≡◌, map, IfOk};
ghost use Rattle.frient.specs.Status.{EndsWith, words_in};

use fr_edges::{Sink, Source, StdSink, StdSource, straight_wires};
use frient_run::run_frient;
use std::alloc::{AllocError, Global};
use std::env;
use std::io::ErrorKind;
use std::process::ExitCode;
use std::sync::Wait;
use std::thread::Threads;

/// How many wires a run has.
const WIRES: usize = 16;

/// The status where words or script are refused.
const REFUSED: u8 = 2;

/// The status where a read or a write failed.
const FAILED: u8 = 3;

/// The status where memory is wanting.
const NO_MEMORY: u8 = 6;

fn main(rt: HostRuntime) -> ExitCode {
    let alloc = rt.alloc();
    let arguments = match env::args(&rt) {
        Ok(arguments) => arguments.collect(alloc),
        Err(error) if error.kind() == ErrorKind::OutOfMemory => Err(AllocError),
        // Arguments that can't be had as text count as no words.
        Err(_) => Ok(Vec::new(alloc)),
    };
    let status = match arguments {
        Ok(arguments) => {
            let mut source = StdSource::new(rt.stdin());
            let mut sink = StdSink::new(rt.stdout());
            status(&rt, alloc, &arguments, &mut source, &mut sink)
        }
        Err(AllocError) => NO_MEMORY,
    };
    if let Some(advice) = advice(status) {
        // Where standard error fails too, the status alone tells.
        let _ = rt.eprintln(advice);
    }
    ExitCode::from(status)
}

// What was the matter and what to do, where nothing was run or not all was written.
fn advice(status: u8) -> Option<&'static str> {
    match status {
        REFUSED => Some(
            "frient: refused, and nothing was run: the line on standard output says why; \
             `frient run` reads a script, `frient run --number N` makes one",
        ),
        FAILED => Some(
            "frient: a read of standard input or a write to standard output failed: \
             see where they lead, and run it again",
        ),
        NO_MEMORY => Some("frient: memory was wanting: give it more, or a smaller script"),
        _ => None,
    }
}

// The status of a run over straight wires; the first argument is the program's name.
fn status<R: Threads + Wait + Sync, S: Source, K: Sink>(
    rt: &R,
    alloc: Global,
    arguments: &[String],
    source: &mut S,
    sink: &mut K,
) -> u8
    ensures { EndsWith (words_in arguments.now) (S.view source.old) (S.view source.new) (K.view sink.old) (K.view sink.new) result }
{
    let (Ok(words), Ok(mut wires)) = (words_in(alloc, arguments), straight_wires(alloc, WIRES))
    else {
        return NO_MEMORY;
    };
    run_frient(rt, alloc, &words, source, sink, &mut wires).status
}

// The words behind the program's name.
fn words_in(alloc: Global, arguments: &[String]) -> Result<Vec<&str>, AllocError>
    ensures { IfOk result (λ words. map (λ w. w.now) words.items ≡ words_in arguments.now) }
{
    let mut words = Vec::new(alloc);
    for argument in arguments.get(1..).unwrap_or(&[]) {
        words.push(argument.as_str())?;
    }
    Ok(words)
}
