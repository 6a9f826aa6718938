ghost use Rattle.std.specs.Prelude.{◌≡◌, ◌≢◌, length, map};
ghost use Rattle.frient_run.specs.Ends.{Ends, Happened, HasPlaces, RunsOver};
ghost use Rattle.script_read.specs.Limits.{IsScript};

use crate::ended::Ended;
use crate::fate::Fate;
use crate::running::tell;
use crate::saying::conclude;
use fr_bytes::NoMemory;
use fr_edges::{Sink, Source, Wire};
use frient_script::{Chosen, Unchosen, choose};
use std::alloc::Global;
use std::mem;
use std::sync::Wait;
use std::thread::Threads;

/// A call of the program: runs the script that the words behind the program's name ask for over these wires, audits the
/// run, and writes its report to `sink`.
///
/// The words `run` ask for the script that `source` holds, and `run --number N` for the generated script of a number from
/// 0 to 4,294,967,295, for which the source isn't read and a summary is written. The i-th wire is that of the i-th
/// session of each phase; there are 16. The text is made whole before its first byte is written, and writing it takes no
/// memory. [`Ended`] says when each status comes.
///
/// It starts threads, and may wait for turns; it says nothing of how long. In every status but 6 the 16 wires are in
/// their places at the end.
pub fn run_frient<R: Threads + Wait + Sync, S: Source, K: Sink, W: Wire + Send>(
    rt: &R,
    alloc: Global,
    words: &[&str],
    source: &mut S,
    sink: &mut K,
    wires: &mut Vec<W>,
) -> Ended
    requires sixteen { length wires.old.items ≡ 16 }
    ensures ends { Ends (map (λ w. w.now) words.now) (S.view source.old) (S.view source.new) (K.view sink.old) (K.view sink.new) (map W.view wires.old.items) (map W.view wires.new.items) result }
    ensures places { result.status ≢ 6 → length wires.new.items ≡ 16 }
{
    let fate = fate(rt, alloc, words, source, wires);
    conclude(alloc, sink, fate)
}

// What comes of the words and the source's bytes.
fn fate<R: Threads + Wait + Sync, S: Source, W: Wire + Send>(
    rt: &R,
    alloc: Global,
    words: &[&str],
    source: &mut S,
    wires: &mut Vec<W>,
) -> Fate
    requires sixteen { length wires.old.items ≡ 16 }
    ensures happened { Happened (map (λ w. w.now) words.now) (S.view source.old) (S.view source.new) (map W.view wires.old.items) (map W.view wires.new.items) result }
    ensures places { HasPlaces result (length wires.new.items) }
{
    match choose(alloc, words, source) {
        Ok(chosen) => run_over(rt, alloc, &chosen, wires),
        Err(Unchosen::Refused { line }) => Fate::Refused(line),
        Err(Unchosen::Unread) => Fate::Unread,
        Err(Unchosen::NoMemory) => Fate::Starved,
    }
}

// What comes of the script that was chosen.
fn run_over<R: Threads + Wait + Sync, W: Wire + Send>(
    rt: &R,
    alloc: Global,
    chosen: &Chosen,
    wires: &mut Vec<W>,
) -> Fate
    requires script { IsScript chosen.now.script }
    requires sixteen { length wires.old.items ≡ 16 }
    ensures { RunsOver chosen.now W.view wires.old.items wires.new.items result }
{
    let taken = mem::replace(wires, Vec::new(alloc));
    match tell(rt, alloc, chosen, taken) {
        Ok((told, left)) => {
            *wires = left;
            Fate::Ran(told)
        }
        Err(NoMemory) => Fate::Starved,
    }
}
