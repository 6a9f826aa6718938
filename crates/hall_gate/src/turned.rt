ghost use Rattle.std.specs.Prelude.{◌≡◌, ℕ, List, IfOk};
ghost use Rattle.hall_gate.specs.Calls.{AddsCall};

use fr_bytes::NoMemory;

/// A value that answers calls one at a time and keeps one entry of each.
///
/// No call takes memory of its own: what an entry needs comes with the slip, and `seen` may answer that
/// it wants memory.
///
/// Where an impl has type parameters, no function that its methods call may ask `Send` or `Sync` of them: the
/// toolchain takes such a bound only where threads are started.
pub trait Turned {
    /// A call as it is handed in: its caller, what it asks, and the memory of its entry.
    type Slip;

    type Answer;
    /// What a caller is shown of the value after its call.
    type Seen;
    /// One call as it is kept.
    type Entry;
    /// What a call asks.
    type Ask;
    /// What no call changes.
    type Fixed;

    // What each value in use keeps.
    ghost valid: { Self → Type 0 };

    ghost fixed: { Self → Self.Fixed };
    // All calls so far, the oldest first.
    ghost entries: { Self → List Self.Entry };
    // Which lists of entries a value with this fixed part can have.
    ghost legal: { Self.Fixed → List Self.Entry → Type 0 };

    ghost slip_caller: { Self.Slip → ℕ };

    ghost slip_ask: { Self.Slip → Self.Ask };

    ghost caller: { Self.Entry → ℕ };

    ghost ask: { Self.Entry → Self.Ask };

    ghost answer: { Self.Entry → Self.Answer };
    // What is shown is a value with this fixed part and these entries.
    ghost stands: { Self.Seen → Self.Fixed → List Self.Entry → Type 0 };

    /// Answers a call, and adds its entry.
    fn step(&mut self, slip: Self::Slip) -> Self::Answer
        requires { valid self.old }
        ensures valid { valid self.new }
        ensures fixed { fixed self.new ≡ fixed self.old }
        ensures call { AddsCall caller ask answer (entries self.old) (entries self.new) (slip_caller slip) (slip_ask slip) result };

    /// Shows the value as it is now.
    fn seen(&self) -> Result<Self::Seen, NoMemory>
        requires { valid self.now }
        ensures { IfOk result (λ n. stands n (fixed self.now) (entries self.now)) };

    ghost always_legal: { (x : Self) → valid x → legal (fixed x) (entries x) };
}
