use crate::turned::TurnedHall;
use fr_digest::Digester;
use hall_gate::Gate;

/// A server: a hall behind a turn lock for each wall.
///
/// It may be shared between threads, each with the seats of one user.
#[derive(Drop)]
pub struct Server<D: Digester> {
    pub(crate) gates: Vec<Gate<TurnedHall<D>>>,
    /// The numbers of the walls, in the gates' order.
    pub(crate) walls: Vec<u32>,
}
