use fr_digest::Dig;
use lms_tree::{PublicKey, UserKeys};

/// What a client knows of a wall, and what it has accepted of it.
#[derive(Debug, Drop)]
pub struct Known {
    /// The number of the wall.
    pub wall: u32,
    /// The number of the user who owns it.
    pub owner: u32,
    /// How many of the wall's users may be in league with the server: more have to vouch for what isn't shown. At most
    /// 31.
    pub f: u32,
    /// The key under which the wall's server signs its views.
    pub server: PublicKey,
    /// The public keys of the listed users, the users rising.
    pub users: UserKeys,
    /// How many positions the client has accepted.
    pub size: u64,
    /// The root of the history of these positions, and 32 zero bytes where there are none.
    pub root: Dig,
    /// How many changes of the access list there are among them.
    pub epoch: u64,
}
