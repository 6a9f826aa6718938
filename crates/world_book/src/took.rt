use crate::log::Log;
use dict_proof::Dicts;
use fr_digest::Dig;
use hist_proof::Pruned;
use op_types::{Leaves, Op};

/// A reply that a user's client took: what it had accepted of the wall before, and what the reply showed.
#[derive(Debug, Drop)]
pub struct Took {
    /// The user.
    pub user: u32,
    /// The wall.
    pub wall: u32,
    /// How many positions the client had accepted.
    pub have: u64,
    /// The first position that the reply showed.
    pub from: u64,
    /// The leaves at the positions from `from` on.
    pub leaves: Leaves,
    /// How many positions the reply's view covered.
    pub size: u64,
    /// The view's root.
    pub root: Dig,
    /// The pruned tree of the history.
    pub proof: Pruned,
    /// For each position from `from` on the pruned access list before it.
    pub dicts: Dicts,
}

/// A list of taken replies.
pub type Tooks = Log<Took>;

/// An operation that a user's client signed.
#[derive(Debug, Drop)]
pub struct Signed {
    /// The user.
    pub user: u32,
    /// The operation.
    pub op: Op,
}

/// A list of signed operations.
pub type SignedOps = Log<Signed>;
