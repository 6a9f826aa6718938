use crate::source::Failed;

/// Where bytes go.
///
/// Its meanings are the bytes that were written, where it tells them, and a count of faults, which
/// never falls. A write doesn't change whether it tells its bytes.
pub trait Sink {
    ghost use Rattle.fr_edges.specs.Sink.{SinkView, Writes};

    ghost view: { Self → SinkView };

    /// Appends the first `n` of `bytes` and answers `n`, which is positive where there are any. An `Ok`
    /// leaves the count of faults as it was. `Failed` comes only where the count has risen, and appends
    /// nothing.
    fn write(&mut self, bytes: &[u8]) -> Result<usize, Failed>
        ensures { Writes (view self.old) (view self.new) bytes.now result };
}
