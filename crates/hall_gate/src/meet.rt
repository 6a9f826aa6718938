//! A meeting of two seats: each is told of what the other has seen, and looks at the history.
ghost use Rattle.std.specs.Prelude.{◌≡◌, [], ◌∷◌, IsOk};
ghost use Rattle.std.specs.Option.{ForSome};
ghost use Rattle.std.specs.List.{AllByRecursion};
ghost use Rattle.hall_gate.specs.declared.rule.Stage.TheVariants.{Idle};
ghost use Rattle.fr_bytes.specs.History.{Begins};
ghost use Rattle.hall_gate.specs.Knowing.{view};
ghost use Rattle.hall_gate.specs.Seats.{front_of, fixed_of, IsSeatOf, HasSeenMore};

use super::gate::Gate;
use super::plays::{Gather, Meet, Note};
use super::rule::View;
use super::seat::GateSeat;
use super::turned::Turned;
use atomic_table::Seat;
use fr_bytes::NoMemory;

impl<T: Turned> Gate<T> {
    /// Two seats meet: each has then seen at least what both had seen, and no new entry of its own caller.
    ///
    /// Both are this gate's. It doesn't wait, not even for a turn that goes on meanwhile. The answer is `Ok`,
    /// since no memory is taken.
    pub fn meet(&self, a: &mut GateSeat<T>, b: &mut GateSeat<T>) -> Result<(), NoMemory>
        requires a { IsSeatOf self.now a.old }
        requires b { IsSeatOf self.now b.old }
        ensures ok { IsOk result }
        ensures seats { IsSeatOf self.now a.new × IsSeatOf self.now b.new }
        ensures a_sees { HasSeenMore T.caller a.old a.new × Begins (front_of b.old) (front_of a.new) }
        ensures b_sees { HasSeenMore T.caller b.old b.new × Begins (front_of a.old) (front_of b.new) }
        ensures legal { ForSome (fixed_of a.old) (λ f. T.legal f (front_of a.new)) × ForSome (fixed_of b.old) (λ f. T.legal f (front_of b.new)) }
    {
        let from_a = self.note(a);
        let from_b = self.note(b);
        self.look(a, from_b);
        self.look(b, from_a);
        Ok(())
    }

    // A view that has heard of what the seat has seen.
    pub(crate) fn note(&self, seat: &mut GateSeat<T>) -> Seat<Option<T>, View<T::Fixed, T::Entry>>
        requires { IsSeatOf self.now seat.old }
        ensures seat { IsSeatOf self.now seat.new }
        ensures same { seat.new.seat.me.0.charges ≡ seat.old.seat.me.0.charges }
        ensures at { result.table_id ≡ self.now.table.shared.table_id }
        ensures note { result.me ≡ (view Idle [] (front_of seat.old ∷ []), []) }
    {
        self.table.shared.split_seat::<Note>(&mut seat.seat)
    }

    // Takes the note in, and looks at the history.
    fn look(&self, seat: &mut GateSeat<T>, other: Seat<Option<T>, View<T::Fixed, T::Entry>>)
        requires seat { IsSeatOf self.now seat.old }
        requires at { other.table_id ≡ self.now.table.shared.table_id }
        requires note { other.me ≡ (view Idle [] other.me.0.heard, []) }
        ensures seat { IsSeatOf self.now seat.new }
        ensures sees { HasSeenMore T.caller seat.old seat.new }
        ensures told { AllByRecursion (λ front. Begins front (front_of seat.new)) other.me.0.heard }
        ensures legal { ForSome (fixed_of seat.old) (λ f. T.legal f (front_of seat.new)) }
    {
        self.table.shared.join_seat::<Gather>(&mut seat.seat, other);
        self.table.shared.load::<Meet<T>>(&mut seat.seat, 1);
    }
}
