//! The closing of a gate: all seats are joined into one, which then knows that nobody has the turn.
ghost use Rattle.std.specs.Prelude.{◌≡◌, ◌<◌, [], map, length, Some};
ghost use Rattle.std.specs.List.{All, Contains};
ghost use Rattle.hall_gate.specs.declared.rule.Stage.TheVariants.{Idle};
ghost use Rattle.fr_bytes.specs.History.{Begins, own};
ghost use Rattle.hall_gate.specs.Knowing.{view};
ghost use Rattle.hall_gate.specs.Plays.{seated};
ghost use Rattle.hall_gate.specs.Rule.{Closes};
ghost use Rattle.hall_gate.specs.Seats.{caller_of, front_of, fixed_of, callers_of, IsSeatOf, state_of};

use super::gate::{Gate, TurnTable};
use super::plays::Gather;
use super::rule::View;
use super::seat::GateSeat;
use super::turned::Turned;
use atomic_table::Seat;

impl<T: Turned> Gate<T> {
    /// Gives the value back.
    ///
    /// The seats are all of this gate's. The value has the fixed part that it had when the gate was made.
    /// Each seat's front is a front of its entries, which have no other entry of the seat's caller, and no
    /// entry of anyone who isn't a caller of the gate.
    pub fn close(self, seats: Vec<GateSeat<T>>) -> T
        requires seats { All (IsSeatOf self) seats.items }
        requires all { length seats.items ≡ length (callers_of self) }
        ensures valid { T.valid result }
        ensures fixed { All (λ seat. fixed_of seat ≡ Some (T.fixed result)) seats.items }
        ensures fronts { All (λ seat. Begins (front_of seat) (T.entries result)) seats.items }
        ensures own { All (λ seat. own T.caller (caller_of seat) (T.entries result) ≡ own T.caller (caller_of seat) (front_of seat)) seats.items }
        ensures callers { All (λ e. Contains (callers_of self) (T.caller e)) (T.entries result) }
    {
        let place = self.gather(seats);
        unlock(self.into_table(), place)
    }

    // Joins all seats into one.
    fn gather(&self, mut seats: Vec<GateSeat<T>>) -> Seat<Option<T>, View<T::Fixed, T::Entry>>
        requires seats { All (IsSeatOf self.now) seats.items }
        requires some { 0 < length seats.items }
        ensures at { result.table_id ≡ self.now.table.shared.table_id }
        ensures state { result.me ≡ (view Idle result.me.0.charges [], []) }
        ensures gathered { map state_of seats.items ≡ map seated result.me.0.charges }
    {
        let Some(last) = seats.pop() else {
            unreachable!()
        };
        let mut place = last.into_place();
        while let Some(seat) = seats.pop() {
            self.table
                .shared
                .join_seat::<Gather>(&mut place, seat.into_place());
        }
        place
    }
}

// Nobody has the turn where one seat has the charges of all callers: the value is in its slot.
fn unlock<T: Turned>(table: TurnTable<T>, place: Seat<Option<T>, View<T::Fixed, T::Entry>>) -> T
    requires shape { table.shared.table_id.slots ≡ 1 }
    requires at { place.table_id ≡ table.shared.table_id }
    requires state { place.me ≡ (view Idle place.me.0.charges [], []) }
    requires all { length place.me.0.charges ≡ length table.shared.key.items }
    ensures { Closes T.valid T.fixed T.entries T.caller table.shared.key.items place.me.0.charges result }
{
    let mut closed = table.close_with(place);
    let slot = closed.take(0);
    closed.free();
    let Some(inner) = slot else { unreachable!() };
    inner
}
