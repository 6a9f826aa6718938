use lms_tree::{PublicKey, UserKeys};

/// What no call changes of a wall.
#[derive(Debug, Drop)]
pub struct WallFacts {
    /// The number of the wall.
    pub wall: u32,
    /// The number of the user who owns it.
    pub owner: u32,
    /// How many of the wall's writers may be false, at most.
    pub f: u32,
    /// The key under which the server signs its views.
    pub server: PublicKey,
    /// The public keys of the listed users, the users rising.
    pub users: UserKeys,
}
