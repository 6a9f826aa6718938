use client_core::Client;
use fr_digest::Digester;
use hall_server::{Seats, Server};
use world_book::WallNotes;

/// What a run begins with.
#[derive(Drop)]
pub struct Start<D: Digester> {
    /// The server of the walls, in rising order.
    pub server: Server<D>,
    /// The seats of each user, the users rising.
    pub seats: Vec<Seats<D>>,
    /// The client of each user, the users rising.
    pub clients: Vec<Client<D>>,
    /// What everybody knows of the walls, in rising order.
    pub notes: WallNotes,
}
