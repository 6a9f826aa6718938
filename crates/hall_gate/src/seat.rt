ghost use Rattle.std.specs.Prelude.{◌≡◌};

use super::rule::View;
use super::turned::Turned;
use atomic_table::Seat;

/// One caller's place at a gate. Contracts see whose it is, and its front: what the caller has seen of
/// the history of all calls. It has no bytes, and may go to another thread.
pub struct GateSeat<T: Turned> {
    pub(crate) seat: Seat<Option<T>, View<T::Fixed, T::Entry>>,
}

impl<T: Turned> GateSeat<T> {
    pub(crate) fn into_place(self) -> Seat<Option<T>, View<T::Fixed, T::Entry>>
        ensures { result ≡ self.seat }
    {
        let GateSeat { seat } = self;
        seat
    }
}

impl<T: Turned> Drop for GateSeat<T> {
    fn drop(self) {
        let GateSeat { seat } = self;
        drop(seat);
    }
}
