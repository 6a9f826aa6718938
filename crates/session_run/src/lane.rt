use client_core::Client;
use fr_digest::Digester;
use hall_server::Seats;
use script_form::{Commands, OutcomeList};

/// A user's session in a phase: its client, its seats at the walls, what it is to do, and what came of that.
#[derive(Drop)]
pub struct Session<D: Digester> {
    /// The user's client.
    pub client: Client<D>,
    /// The user's seats, one at each wall of the server.
    pub seats: Seats<D>,
    /// At most 2,048 commands.
    pub commands: Commands,
    /// An outcome for each command that was done, in order.
    pub outcomes: OutcomeList,
}

/// A session with its wire.
#[derive(Drop)]
pub struct Lane<D: Digester, W> {
    /// The session.
    pub session: Session<D>,
    /// What carries its requests and the replies.
    pub wire: W,
    /// Whether it met a want of memory: it then did no further command.
    pub short: bool,
}
