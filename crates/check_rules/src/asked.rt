use fr_bytes::Bytes;

/// What a reply is to.
#[derive(Debug, Drop, PartialEq, Eq)]
pub enum Asked {
    /// A look at the wall.
    Look,
    /// An operation that was sent.
    Append {
        /// The operation's bytes.
        op: Bytes,
    },
}
