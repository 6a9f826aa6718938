use op_types::Leaves;

/// What a client makes of a reply that it doesn't reject.
#[derive(Debug, Drop)]
pub enum News {
    /// It has accepted what the reply says.
    Same {
        /// How many positions that is.
        size: u64,
    },
    /// It accepted more.
    Took {
        /// How many positions it has accepted now.
        size: u64,
        /// The first position that was shown.
        from: u64,
        /// The leaves at the positions from `from` on.
        leaves: Leaves,
    },
    /// The server refused the operation that was sent.
    Refused {
        /// Why, as `msg_form::causes` numbers it.
        cause: u8,
        /// The cause's detail.
        number: u64,
    },
}
