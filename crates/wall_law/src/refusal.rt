use thiserror::Error;

/// Why an operation may not stand at a position. The first that applies is told, in this order.
#[derive(Clone, Copy, Debug, PartialEq, Eq, Error)]
pub enum LawRefusal {
    /// The operation is of another wall.
    #[error("the operation is of another wall")]
    WrongWall,
    /// Its author isn't in the access list as a writer or as the owner.
    #[error("the author may not write")]
    NotAllowed,
    /// It was made at another epoch than the state's.
    #[error("it was made at another epoch than {now}")]
    StaleEpoch {
        /// The state's epoch.
        now: u64,
    },
    /// Its number is smaller than the author's next one.
    #[error("its number is smaller than {next}")]
    Replayed {
        /// The author's next number.
        next: u32,
    },
    /// It changes the access list, and its author isn't the owner, or it admits a user who is in the
    /// list, or it removes a user who isn't or who is the owner.
    #[error("the author may not change the access list so")]
    BadChange,
    /// Its view covers more operations than stand before the position.
    #[error("its view covers later operations")]
    LateView,
}

/// What stands in the way of the leaf at a position. The first that applies is told, in this order.
#[derive(Clone, Copy, Debug, PartialEq, Eq, Error)]
pub enum PositionRefusal {
    /// Its author has no known key, or the signature isn't valid under it.
    #[error("the author didn't sign the operation")]
    BadAuthorSignature,
    /// The access list that is shown isn't the one before the position, or hides what has to be looked up.
    #[error("the access list that is shown isn't the one before it, or hides too much")]
    BadDictProof,
    /// The law refuses its operation.
    #[error("the law refuses the operation: {0}")]
    Unlawful(LawRefusal),
    /// The view that its operation embeds isn't one of this history, or its signature isn't valid.
    #[error("the view that it embeds isn't one of this history")]
    BadView,
    /// It tells another access list or epoch than those after its operation.
    #[error("it tells another access list or epoch than it leaves")]
    WrongAfter,
}
