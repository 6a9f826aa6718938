//! A turn: draw a ticket, wait until it is served, take the value, put it back, serve the next ticket.
ghost use Rattle.std.specs.Prelude.{◌≡◌, Some, None, IfOk};
ghost use Rattle.std.specs.Option.{ForSome};
ghost use Rattle.hall_gate.specs.Calls.{TakesTurn, AddsCall};
ghost use Rattle.hall_gate.specs.Seats.{caller_of, front_of, fixed_of, IsSeatOf, IsSameSeat, HasSeenMore, IsWaiting, IsHolding, IsSeen, IsNext};

use super::gate::Gate;
use super::plays::{Await, Draw, Serve};
use super::seat::GateSeat;
use super::turned::Turned;
use fr_bytes::NoMemory;
use std::sync::Wait;

impl<T: Turned> Gate<T> {
    /// Makes one call: waits for the turn, hands the slip to the value, and shows the value as it is then.
    ///
    /// The seat is this gate's, and the slip's caller is the seat's. The seat's front is afterwards what it
    /// was, then entries of others, and then the entry of this call with the answer that is returned. It is
    /// the list of all entries that the value had at the end of this turn, it is legal for the fixed part
    /// of the value behind the gate, and what is shown stands for it.
    ///
    /// The gate takes no memory for it. Where the value wants memory to be shown, that is handed on beside
    /// the answer, and the call is made all the same. It may wait for other callers' turns, and says nothing
    /// of how long.
    pub fn turn<R: Wait>(
        &self,
        rt: &R,
        seat: &mut GateSeat<T>,
        slip: T::Slip,
    ) -> (T::Answer, Result<T::Seen, NoMemory>)
        requires seat { IsSeatOf self.now seat.old }
        requires caller { T.slip_caller slip ≡ caller_of seat.old }
        ensures seat { IsSeatOf self.now seat.new }
        ensures same { IsSameSeat seat.old seat.new }
        ensures front { TakesTurn T.caller T.ask T.answer (front_of seat.old) (front_of seat.new) (caller_of seat.old) (T.slip_ask slip) result.0 }
        ensures had { (x : T) × IsSeen T.valid T.fixed T.entries seat.new x }
        ensures legal { ForSome (fixed_of seat.old) (λ f. T.legal f (front_of seat.new)) }
        ensures seen { IfOk result.1 (λ n. ForSome (fixed_of seat.old) (λ f. T.stands n f (front_of seat.new))) }
    {
        let ticket = self.draw(seat);
        self.wait_for(rt, seat, ticket);
        self.work(seat, slip)
    }

    // Draws the next ticket.
    fn draw(&self, seat: &mut GateSeat<T>) -> u64
        requires { IsSeatOf self.now seat.old }
        ensures waiting { IsWaiting self.now seat.new result }
        ensures same { seat.new.seat.me.0.charges ≡ seat.old.seat.me.0.charges }
    {
        self.table.shared.fetch_add::<Draw>(&mut seat.seat, 0, 1)
    }

    // Waits until the ticket is served. The slot is then the seat's, and it has seen all entries.
    fn wait_for<R: Wait>(&self, rt: &R, seat: &mut GateSeat<T>, ticket: u64)
        requires { IsWaiting self.now seat.old ticket }
        ensures sees { HasSeenMore T.caller seat.old seat.new }
        ensures turn { (x : T) × IsHolding self.now seat.new (Some x) × IsSeen T.valid T.fixed T.entries seat.new x }
    {
        let mut looks = 0u32;
        for _ in rt.forever() {
            self.parking.announce(ticket, looks);
            let serving = self.table.shared.load::<Await<T>>(&mut seat.seat, 1);
            if serving == ticket {
                return;
            }
            self.parking.pause(rt, ticket, looks);
            looks = looks.saturating_add(1);
        }
        unreachable!()
    }

    // What is done while the turn is held.
    fn work(&self, seat: &mut GateSeat<T>, slip: T::Slip) -> (T::Answer, Result<T::Seen, NoMemory>)
        requires turn { (x : T) × IsHolding self.now seat.old (Some x) × IsSeen T.valid T.fixed T.entries seat.old x }
        requires caller { T.slip_caller slip ≡ caller_of seat.old }
        ensures seat { IsSeatOf self.now seat.new }
        ensures same { IsSameSeat seat.old seat.new }
        ensures front { AddsCall T.caller T.ask T.answer (front_of seat.old) (front_of seat.new) (caller_of seat.old) (T.slip_ask slip) result.0 }
        ensures had { (x : T) × IsSeen T.valid T.fixed T.entries seat.new x }
        ensures legal { ForSome (fixed_of seat.old) (λ f. T.legal f (front_of seat.new)) }
        ensures seen { IfOk result.1 (λ n. ForSome (fixed_of seat.old) (λ f. T.stands n f (front_of seat.new))) }
    {
        let mut inner = self.take(seat);
        let answer = inner.step(slip);
        let seen = inner.seen();
        self.give_back(seat, inner);
        (answer, seen)
    }

    // Takes the value out of the slot.
    fn take(&self, seat: &mut GateSeat<T>) -> T
        requires { (x : T) × IsHolding self.now seat.old (Some x) × IsSeen T.valid T.fixed T.entries seat.old x }
        ensures holding { IsHolding self.now seat.new None }
        ensures same { seat.new.seat.me.0.charges ≡ seat.old.seat.me.0.charges }
        ensures value { IsSeen T.valid T.fixed T.entries seat.old result }
    {
        let slot = self.table.shared.exchange(&mut seat.seat, 0, None);
        let Some(inner) = slot else { unreachable!() };
        inner
    }

    // Puts the value into the slot, which goes back as the next ticket is served.
    fn give_back(&self, seat: &mut GateSeat<T>, inner: T)
        requires holding { IsHolding self.now seat.old None }
        requires next { IsNext T.valid T.fixed T.entries T.caller seat.old inner }
        ensures seat { IsSeatOf self.now seat.new }
        ensures same { IsSameSeat seat.old seat.new }
        ensures front { front_of seat.new ≡ T.entries inner }
    {
        let slot = self.table.shared.exchange(&mut seat.seat, 0, Some(inner));
        let served = self
            .table
            .shared
            .fetch_add::<Serve<T>>(&mut seat.seat, 1, 1);
        self.parking.wake(served.wrapping_add(1));
        let None = slot else { unreachable!() };
    }
}
