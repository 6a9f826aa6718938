use crate::kind::Kind;
use crate::view::View;
use fr_bytes::{Bytes, Sequence};
use fr_digest::Dig;

/// A signed operation on a wall.
#[derive(Debug, Drop, PartialEq, Eq)]
pub struct Op {
    /// The number of the wall.
    pub wall: u32,
    /// The number of the user who signed it.
    pub author: u32,
    /// Its number among the author's operations on the wall, which rise.
    pub seq: u32,
    /// How many changes of the access list the author had accepted.
    pub epoch: u64,
    /// What the author had accepted of the wall.
    pub view: View,
    /// What it does.
    pub kind: Kind,
    /// The author's signature over the operation's message.
    pub sig: Bytes,
}

/// A leaf of a wall's history: an operation and what holds after it.
#[derive(Debug, Drop, PartialEq, Eq)]
pub struct Leaf {
    /// The digest of the access list after the operation.
    pub after: Dig,
    /// How many changes of the access list there were, this operation included.
    pub epoch: u64,
    /// The operation.
    pub op: Op,
}

/// The leaves of a history or of a part of one, in order.
pub type Leaves = Sequence<Leaf>;

/// Operations that change the access list, in order.
pub type Changes = Sequence<Op>;
