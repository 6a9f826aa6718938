ghost use Rattle.std.specs.Prelude.{◌≡◌, ◌≤◌, length, true, IsErr};

use crate::schedule::Schedule;
use crate::sink::Sink;
use crate::source::Failed;
use std::alloc::Global;

/// A sink in memory, which tells what was written. A write takes at most `piece` bytes, and the writes
/// whose numbers were given, from 1, fail. One that finds no memory fails too.
#[derive(Debug, Drop)]
pub struct MemSink {
    bytes: Vec<u8>,
    piece: usize,
    schedule: Schedule,
    ghost positive: { 1 ≤ piece },
}

impl MemSink {
    ghost use Rattle.fr_edges.specs.Memory.{OpensSink, written_of};

    /// An empty sink that takes at most `piece` bytes at a write, which is at least one. Takes no memory.
    pub fn new(alloc: Global, piece: usize, fails: Vec<u32>) -> MemSink
        requires { 1 ≤ piece }
        ensures { OpensSink piece fails.items result }
    {
        MemSink {
            bytes: Vec::new(alloc),
            piece,
            schedule: Schedule::new(fails),
        }
    }

    /// The bytes that were written.
    pub fn written(&self) -> &[u8]
        ensures { result.now ≡ written_of self.now }
    {
        self.bytes.as_slice()
    }
}

impl Sink for MemSink {
    ghost use Rattle.fr_edges.specs.Sink.{Writes};
    ghost use Rattle.fr_edges.specs.Memory.{sink_view, next_fails, Answers, Goes};

    ghost view = { sink_view };

    fn write(&mut self, bytes: &[u8]) -> Result<usize, Failed>
        ensures writes { Writes (sink_view self.old) (sink_view self.new) bytes.now result }
        ensures fails { next_fails self.old.schedule ≡ true → IsErr result }
        ensures takes { Answers self.old (length bytes.now) result }
        ensures goes { Goes self.old.schedule self.new.schedule }
        ensures kept { self.new.piece ≡ self.old.piece }
    {
        if self.schedule.next_fails() {
            self.schedule.count_fault();
            return Err(Failed);
        }
        let n = bytes.len().min(self.piece);
        match self.bytes.extend_from_slice(&bytes[..n]) {
            Ok(()) => {
                self.schedule.count_call();
                Ok(n)
            }
            Err(_) => {
                self.schedule.count_fault();
                Err(Failed)
            }
        }
    }
}
