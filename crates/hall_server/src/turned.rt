ghost use Rattle.hall_core.specs.Calls.{caller_of, play};
ghost use Rattle.hall_core.specs.Snapshots.{Stands};
ghost use Rattle.hall_core.specs.Standing.{IsKept};
ghost use Rattle.hall_server.specs.Seating.{IsPlayed};
ghost use Rattle.op_types.specs.Spelling.{IsLeaf};
ghost use Rattle.std.proofs.Common.{subst};
ghost use Rattle.std.specs.List.{AllByRecursion};
ghost use Rattle.std.specs.Prelude.{◌≡◌};

use fr_bytes::NoMemory;
use fr_digest::Digester;
use hall_core::{Answer, Ask, Called, Hall, Slip, Snapshot, WallFacts};
use hall_gate::Turned;

/// A hall as it stands behind a gate: each call is one turn.
#[derive(Drop)]
pub struct TurnedHall<D: Digester> {
    pub(crate) hall: Hall<D>,
}

impl<D: Digester> TurnedHall<D> {
    /// The hall as a gate takes it.
    pub fn new(hall: Hall<D>) -> TurnedHall<D>
        ensures { result.hall ≡ hall }
    {
        TurnedHall { hall }
    }

    /// The hall, taken back.
    pub fn into_hall(self) -> Hall<D>
        ensures { result ≡ self.hall }
    {
        let TurnedHall { hall } = self;
        hall
    }
}

impl<D: Digester> Turned for TurnedHall<D> {
    type Slip = Slip;

    type Answer = Answer;

    type Seen = Snapshot<D>;

    type Entry = Called;

    type Ask = Ask;

    type Fixed = WallFacts;

    ghost valid = { λ x. IsKept D.digest_of x.hall.facts x.hall.leaves x.hall.entries };

    ghost fixed = { λ x. x.hall.facts };

    ghost entries = { λ x. x.hall.entries };

    ghost legal = { λ facts calls. IsPlayed D.digest_of facts calls };

    ghost slip_caller = { λ slip. slip.caller };

    ghost slip_ask = { λ slip. slip.ask };

    ghost caller = { caller_of };

    ghost ask = { λ call. call.ask };

    ghost answer = { λ call. call.answer };

    ghost stands = { λ snapshot facts calls. Stands D.digest_of facts (play D.digest_of facts calls) snapshot };

    fn step(&mut self, slip: Slip) -> Answer {
        self.hall.step(slip)
    }

    fn seen(&self) -> Result<Snapshot<D>, NoMemory> {
        self.hall.seen()
    }

    ghost always_legal = { λ x good. record {
      legal = good.legal;
      spelled = subst (AllByRecursion IsLeaf) good.played good.spelled;
    } };
}
