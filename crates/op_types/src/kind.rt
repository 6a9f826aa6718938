ghost use Rattle.std.specs.Prelude.{◌≡◌};

use fr_bytes::{Bytes, Sequence};
use fr_digest::Dig;

/// A key of the key tree, wrapped for those who hold the key of a node below it.
#[derive(Clone, Copy, Debug, PartialEq, Eq)]
pub struct Wrap {
    /// The node whose key opens the wrap. The wrapped key is its parent's.
    pub child: u32,
    /// The generation of the node's key.
    pub child_gen: u32,
    /// The wrapped key.
    pub body: Dig,
}

/// The wraps of a change, in order.
pub type Wraps = Sequence<Wrap>;

/// What an operation does.
#[derive(Debug, Drop, PartialEq, Eq)]
pub enum Kind {
    /// Adds a text to the wall.
    Post {
        /// The text, encrypted.
        body: Bytes,
    },
    /// Adds a user to the access list.
    Admit {
        /// The user.
        user: u32,
        /// The user's role, a reader's or a writer's.
        role: u8,
        /// The user's slot in the key tree.
        slot: u8,
        /// The new keys of the slot's path.
        wraps: Wraps,
    },
    /// Takes a user from the access list.
    Remove {
        /// The user.
        user: u32,
        /// The slot in the key tree that the user had.
        slot: u8,
        /// The new keys of the slot's path.
        wraps: Wraps,
    },
}

impl Kind {
    ghost use Rattle.op_types.specs.Kinds.{is_change, changed_user, posted_body};
    ghost use Rattle.std.specs.Prelude.{option_map};

    /// Whether this changes the access list.
    pub fn is_change(&self) -> bool
        ensures { result ≡ is_change self.now }
    {
        match self {
            Kind::Post { .. } => false,
            Kind::Admit { .. } | Kind::Remove { .. } => true,
        }
    }

    /// The user whom this adds to the access list or takes from it.
    pub fn changed_user(&self) -> Option<u32>
        ensures { result ≡ changed_user self.now }
    {
        match self {
            Kind::Post { .. } => None,
            Kind::Admit { user, .. } | Kind::Remove { user, .. } => Some(*user),
        }
    }

    /// The body of a post.
    pub fn posted_body(&self) -> Option<&[u8]>
        ensures { option_map (λ b. b.now) result ≡ posted_body self.now }
    {
        match self {
            Kind::Post { body } => Some(body.as_slice()),
            Kind::Admit { .. } | Kind::Remove { .. } => None,
        }
    }
}
