use crate::sink::Sink;
use crate::source::{Failed, Source};
use std::io::{Read, Write};

/// The source over a reader of std. It tells nothing of its bytes, and each error of the reader is a
/// fault.
#[derive(Debug, Drop)]
pub struct StdSource<R> {
    reader: R,
    faults: u64,
}

impl<R: Read> StdSource<R> {
    ghost use Rattle.std.specs.Prelude.{◌≡◌, None};

    /// A source over `reader` without a fault.
    pub fn new(reader: R) -> StdSource<R>
        ensures { ⟦<StdSource<R> as Source>⟧.view result ≡ record { left = None; faults = 0 } }
    {
        StdSource { reader, faults: 0 }
    }
}

impl<R: Read> Source for StdSource<R> {
    ghost use Rattle.std.specs.Prelude.{None};

    ghost view = { λ s. record { left = None; faults = s.faults } };

    #[tactic(auto, using(crate::proofs::Counting::one_more_rose))]
    fn read(&mut self, buf: &mut [u8]) -> Result<usize, Failed> {
        match self.reader.read(buf) {
            Ok(n) => Ok(n),
            Err(_) => {
                self.faults = self.faults.saturating_add(1);
                Err(Failed)
            }
        }
    }
}

/// The sink over a writer of std. It tells nothing of its bytes. Each error of the writer is a fault,
/// and so is a write that takes nothing of a piece that isn't empty.
#[derive(Debug, Drop)]
pub struct StdSink<W> {
    writer: W,
    faults: u64,
}

impl<W: Write> StdSink<W> {
    ghost use Rattle.std.specs.Prelude.{◌≡◌, None};

    /// A sink over `writer` without a fault.
    pub fn new(writer: W) -> StdSink<W>
        ensures { ⟦<StdSink<W> as Sink>⟧.view result ≡ record { written = None; faults = 0 } }
    {
        StdSink { writer, faults: 0 }
    }
}

impl<W: Write> Sink for StdSink<W> {
    ghost use Rattle.std.specs.Prelude.{None};

    ghost view = { λ s. record { written = None; faults = s.faults } };

    #[tactic(auto, using(crate::proofs::Counting::one_more_rose))]
    fn write(&mut self, bytes: &[u8]) -> Result<usize, Failed> {
        match self.writer.write(bytes) {
            Ok(n) if n > 0 || bytes.is_empty() => Ok(n),
            _ => {
                self.faults = self.faults.saturating_add(1);
                Err(Failed)
            }
        }
    }
}
