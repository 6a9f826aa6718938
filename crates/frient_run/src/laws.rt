//! The law of calls over straight wires. The function has an empty body, and its contract is the law.
ghost use Rattle.std.specs.Prelude.{ℕ, List};
ghost use Rattle.fr_edges.specs.Sink.{SinkView};
ghost use Rattle.fr_edges.specs.Source.{SourceView};
ghost use Rattle.fr_edges.specs.Wire.{WireView};
ghost use Rattle.frient_run.specs.Complete.{Completes, IsCalm};
ghost use Rattle.frient_run.specs.declared.ended.Ended.{Ended};
ghost use Rattle.frient_run.specs.Ends.{Ends};

/// A call over straight wires, of which no read and no write failed: a script was run, its whole text written, and the
/// status is 0; or the words or the script were refused; or memory was wanting, and the status is 6.
pub fn complete()
    ensures { (words : List (List ℕ)) (source source' : SourceView) (sink sink' : SinkView) (wires wires' : List WireView)
        (ended : Ended) → IsCalm source source' sink sink' wires
        → Ends words source source' sink sink' wires wires' ended
        → Completes words source source' sink sink' wires wires' ended }
{}
