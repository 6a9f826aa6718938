use fr_digest::Dig;
use thiserror::Error;

/// A change of a wall's members, as it is planned.
#[derive(Clone, Copy, Debug, PartialEq, Eq)]
pub enum KeyChange {
    /// Gives a user a slot.
    Admit {
        /// The user.
        user: u32,
        /// The user's leaf key on the wall.
        leaf: Dig,
    },
    /// Takes a user's slot.
    Remove {
        /// The user.
        user: u32,
    },
}

/// A change in its generation, with the slot that it takes or frees.
#[derive(Clone, Copy, Debug, PartialEq, Eq)]
pub struct Change {
    /// The generation of the keys that it makes.
    pub generation: u32,
    /// The slot.
    pub slot: u8,
    /// What is changed.
    pub what: KeyChange,
}

/// Why a change isn't planned. The first that applies is told, in this order.
#[derive(Clone, Copy, Debug, PartialEq, Eq, Error)]
pub enum PlanRefusal {
    /// The user who is to be admitted has a slot.
    #[error("the user has a slot")]
    AlreadyIn,
    /// The user who is to be removed has no slot.
    #[error("the user has no slot")]
    NotIn,
    /// Every slot is taken.
    #[error("every slot is taken")]
    NoSlot,
    /// An allocation was refused.
    #[error("an allocation was refused")]
    NoMemory,
}

/// What a key tree is made for.
#[derive(Clone, Copy, Debug, PartialEq, Eq)]
pub struct Setting {
    /// The number of the wall.
    pub wall: u32,
    /// How many levels stand above a slot.
    pub depth: u8,
    /// The owner's secret, of which the keys of inner nodes are made.
    pub master: Dig,
}

/// Who has a slot.
#[derive(Clone, Copy, Debug, PartialEq, Eq)]
pub struct Member {
    /// The user.
    pub user: u32,
    /// The user's leaf key on the wall.
    pub leaf: Dig,
}
