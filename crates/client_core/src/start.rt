use check_rules::Known;
use fr_bytes::Sequence;
use fr_digest::Dig;

/// Users' secrets, each shared with the owner of a wall, the users rising.
pub type UserSecrets = Sequence<(u32, Dig)>;

/// What the owner of a wall has more than others.
#[derive(Debug, Drop)]
pub struct Owned {
    /// The secret of which the keys of the wall's key tree are made.
    pub master: Dig,
    /// The users' secrets. A user who isn't listed counts with a secret of 32 zero bytes.
    pub secrets: UserSecrets,
}

/// What a client begins with on a wall.
#[derive(Debug, Drop)]
pub struct SideStart {
    /// What is known of the wall. Nothing of it has been accepted.
    pub known: Known,
    /// How many levels the wall's key tree has above a slot, 1 to 6.
    pub depth: u8,
    /// The secret that the user shares with the wall's owner.
    pub secret: Dig,
    /// What the user has as the wall's owner.
    pub owned: Option<Owned>,
}
