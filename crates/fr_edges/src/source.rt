use thiserror::Error;

/// A read or a write failed. The count of faults of the source or sink has then risen.
#[derive(Clone, Copy, Debug, PartialEq, Eq, Error)]
#[error("a read or a write failed")]
pub struct Failed;

/// Where bytes come from.
///
/// Its meanings are the bytes that it has left, where it tells them, and a count of faults, which
/// never falls. A read doesn't change whether it tells its bytes.
pub trait Source {
    ghost use Rattle.fr_edges.specs.Source.{SourceView, Reads};

    ghost view: { Self → SourceView };

    /// Moves the next `n` bytes into the front of `buf` and answers `n`; `0` for a buffer that isn't
    /// empty is the end of input. An `Ok` leaves the count of faults as it was. `Failed` comes only where
    /// the count has risen, and moves nothing.
    fn read(&mut self, buf: &mut [u8]) -> Result<usize, Failed>
        ensures { Reads (view self.old) (view self.new) buf.new result };
}
