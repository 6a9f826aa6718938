use fr_digest::{Clash, Digester};
use op_types::Op;

/// What an audit counts where it finds nothing: all records, and those that have a history.
#[derive(Clone, Copy, Debug, PartialEq, Eq)]
pub struct Sound {
    /// How many records there are.
    pub records: u64,
    /// How many of them have a history.
    pub grounded: u64,
}

/// Where an audit ends before it has compared everything.
#[derive(Drop)]
pub enum AuditEnd<D: Digester> {
    /// Two strings of one digest: those of the first comparison that differs.
    Clash(Clash<D>),
    /// An operation in the name of an honest user who never signed it: the first that is shown.
    Forged {
        /// The user.
        user: u32,
        /// The wall.
        wall: u32,
        /// The operation, its signature included.
        op: Op,
    },
    /// There is too little memory.
    NoMemory,
}
