use hall_gate::{GateSeat, Turned};

/// A user's seats, one at each gate of a list, in the gates' order.
#[derive(Drop)]
pub struct Seats<T: Turned> {
    pub seats: Vec<GateSeat<T>>,
}
