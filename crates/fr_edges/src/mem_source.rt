ghost use Rattle.std.specs.Prelude.{◌≡◌, ◌≤◌, Ok, Err, if◌then◌else◌, min, length, take, drop};

use crate::schedule::Schedule;
use crate::source::{Failed, Source};

/// A source in memory, which tells its bytes. A read gives at most `piece` bytes, and the reads whose
/// numbers were given, from 1, fail.
#[derive(Debug, Drop)]
pub struct MemSource {
    bytes: Vec<u8>,
    taken: usize,
    piece: usize,
    schedule: Schedule,
    ghost within: { taken ≤ length bytes.items },
    ghost positive: { 1 ≤ piece },
}

impl MemSource {
    ghost use Rattle.fr_edges.specs.Memory.{OpensSource};

    /// A source of `bytes` that gives at most `piece` of them at a read, which is at least one.
    pub fn new(bytes: Vec<u8>, piece: usize, fails: Vec<u32>) -> MemSource
        requires { 1 ≤ piece }
        ensures { OpensSource bytes.items piece fails.items result }
    {
        MemSource {
            bytes,
            taken: 0,
            piece,
            schedule: Schedule::new(fails),
        }
    }
}

impl MemSource {
    fn left(&self) -> &[u8]
        ensures { result.now ≡ drop self.now.taken self.now.bytes.items }
    {
        &self.bytes[self.taken..]
    }
}

// Copies the front of `left` into that of `buf`, at most `most` bytes, and answers how many.
fn give(left: &[u8], most: usize, buf: &mut [u8]) -> usize
    ensures count { result ≡ min (min (length left.now) most) (length buf.old) }
    ensures front { take result buf.new ≡ take result left.now }
    ensures room { length buf.new ≡ length buf.old }
{
    let n = left.len().min(most).min(buf.len());
    buf[..n].copy_from_slice(&left[..n]);
    n
}

impl Source for MemSource {
    ghost use Rattle.fr_edges.specs.Source.{Reads};
    ghost use Rattle.fr_edges.specs.Memory.{source_view, read_answer, Goes};

    ghost view = { source_view };

    fn read(&mut self, buf: &mut [u8]) -> Result<usize, Failed>
        ensures reads { Reads (source_view self.old) (source_view self.new) buf.new result }
        ensures exact { result ≡ read_answer self.old (length buf.old) }
        ensures goes { Goes self.old.schedule self.new.schedule }
        ensures kept { self.new.piece ≡ self.old.piece }
    {
        if self.schedule.next_fails() {
            self.schedule.count_fault();
            return Err(Failed);
        }
        self.schedule.count_call();
        let n = give(self.left(), self.piece, buf);
        self.taken += n;
        Ok(n)
    }
}
