//! The making of a gate: the value goes into its slot, and each caller is dealt a seat.
ghost use Rattle.std.specs.Prelude.{◌≡◌, ◌≢◌, ◌<◌, ◌≤◌, [], map, length, vec_len, vec_capacity, Some, IfOk, IfErr};
ghost use Rattle.std.specs.List.{All, AllPairs};
ghost use Rattle.hall_gate.specs.declared.rule.Stage.TheVariants.{Unborn, Idle};
ghost use Rattle.hall_gate.specs.Knowing.{view, new_charges};
ghost use Rattle.hall_gate.specs.Plays.{seated};
ghost use Rattle.hall_gate.specs.Seats.{caller_of, front_of, fixed_of, callers_of, IsSeatOf, state_of};

use super::gate::Gate;
use super::parking::Parking;
use super::plays::{Deal, Fill, Open};
use super::rule::View;
use super::seat::GateSeat;
use super::turned::Turned;
use atomic_table::{Seat, Table};
use fr_bytes::NoMemory;
use std::alloc::{AllocError, Global};

impl<T: Turned> Gate<T> {
    /// A gate round `inner`, and a seat for each of `callers`, in their order.
    ///
    /// There is at least one caller, no two are the same, and `inner` has no entries. Each seat has an empty
    /// front. On want of memory the value comes back.
    pub fn make(
        alloc: Global,
        inner: T,
        callers: &[u32],
    ) -> Result<(Gate<T>, Vec<GateSeat<T>>), (NoMemory, T)>
        requires valid { T.valid inner }
        requires fresh { T.entries inner ≡ [] }
        requires some { 0 < length callers.now }
        requires apart { AllPairs (λ c d. c ≢ d) callers.now }
        ensures callers { IfOk result (λ r. (callers_of r.0 ≡ callers.now) × (map caller_of r.1.items ≡ callers.now)) }
        ensures seats { IfOk result (λ r. All (IsSeatOf r.0) r.1.items) }
        ensures fronts { IfOk result (λ r. All (λ seat. front_of seat ≡ []) r.1.items) }
        ensures fixed { IfOk result (λ r. All (λ seat. fixed_of seat ≡ Some (T.fixed inner)) r.1.items) }
        ensures err { IfErr result (λ e. e.1 ≡ inner) }
    {
        let Ok((gate, mut place, mut seats)) = Gate::prepare(alloc, callers) else {
            return Err((NoMemory, inner));
        };
        gate.enter(&mut place, inner);
        gate.deal(place, callers, &mut seats);
        Ok((gate, seats))
    }

    // All memory that a gate needs: its table, and room for the seats.
    fn prepare(
        alloc: Global,
        callers: &[u32],
    ) -> Result<
        (
            Gate<T>,
            Seat<Option<T>, View<T::Fixed, T::Entry>>,
            Vec<GateSeat<T>>,
        ),
        AllocError,
    >
        requires some { 0 < length callers.now }
        requires apart { AllPairs (λ c d. c ≢ d) callers.now }
        ensures callers { IfOk result (λ r. callers_of r.0 ≡ callers.now) }
        ensures place { IfOk result (λ r. (r.1.table_id ≡ r.0.table.shared.table_id) × (r.1.me ≡ (view (Unborn callers.now) [] [], []))) }
        ensures room { IfOk result (λ r. (r.2.items ≡ []) × (length callers.now ≤ vec_capacity r.2)) }
    {
        let seats = Vec::with_capacity(alloc, callers.len())?;
        let parking = Parking::new(alloc, callers.len())?;
        let mut about = Vec::new(alloc);
        about.extend_from_slice(callers)?;
        let (table, place) = Table::vacant(alloc, [0, 0].as_slice(), 1, &about)?;
        Ok((Gate { table, parking }, place, seats))
    }

    // Takes the empty slot, puts the value in, and gives it back.
    fn enter(&self, place: &mut Seat<Option<T>, View<T::Fixed, T::Entry>>, inner: T)
        requires at { place.old.table_id ≡ self.now.table.shared.table_id }
        requires unborn { place.old.me ≡ (view (Unborn (callers_of self.now)) [] [], []) }
        requires valid { T.valid inner }
        requires fresh { T.entries inner ≡ [] }
        ensures at { place.new.table_id ≡ self.now.table.shared.table_id }
        ensures entered { place.new.me ≡ (view Idle (new_charges (T.fixed inner) (callers_of self.now)) [], []) }
    {
        self.table.shared.load::<Open>(place, 0);
        let slot = self.table.shared.exchange(place, 0, Some(inner));
        self.table.shared.load::<Fill<T>>(place, 0);
        let None = slot else { unreachable!() };
    }

    // Cuts a seat off for each caller.
    fn deal(
        &self,
        mut place: Seat<Option<T>, View<T::Fixed, T::Entry>>,
        callers: &[u32],
        seats: &mut Vec<GateSeat<T>>,
    )
        requires at { place.table_id ≡ self.now.table.shared.table_id }
        requires place { (place.me ≡ (view Idle place.me.0.charges [], [])) × (length place.me.0.charges ≡ length callers.now) }
        requires room { (seats.old.items ≡ []) × (length callers.now ≤ vec_capacity seats.old) }
        ensures at { All (λ seat. seat.seat.table_id ≡ self.now.table.shared.table_id) seats.new.items }
        ensures dealt { map state_of seats.new.items ≡ map seated place.me.0.charges }
    {
        for _caller in callers {
            let seat = self.table.shared.split_seat::<Deal>(&mut place);
            seats.push_reserved(GateSeat { seat });
        }
    }
}
