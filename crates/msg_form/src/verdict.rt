ghost use Rattle.std.specs.Prelude.{◌≡◌};
ghost use Rattle.msg_form.specs.Names.{verdict_name, verdict_position, verdict_detail};

/// Why a client rejects a reply, or why it can't judge it. The first that applies is told: first those of
/// the whole reply, then those of the new positions in rising order, and at last `Missing`. Positions
/// count from 0.
#[derive(Clone, Copy, Debug, PartialEq, Eq)]
pub enum Verdict {
    /// The bytes are no reply of the asked kind, its tree and its lists included.
    Garbled,
    /// The reply, or an operation that it shows at a new position, is of another wall.
    WrongWall,
    /// The signature of the reply's view isn't valid under the wall's server key.
    BadServerSignature,
    /// The reply's history is shorter than the one that the client has accepted.
    Shorter,
    /// The reply's history doesn't begin with the one that the client has accepted.
    Forked,
    /// The reply shows from a position that is past what the client has accepted, or from none.
    BadFrom,
    /// The tree isn't one of the reply's size, or hides what has to be shown.
    BadShape,
    /// The tree's root isn't the root of the reply's view.
    RootMismatch,
    /// Too few authors vouch for what isn't shown.
    TooFewVouch {
        /// How many do.
        found: u32,
        /// How many have to.
        needed: u32,
    },
    /// The author of the operation at a position has no known key, or the signature isn't valid under it.
    BadAuthorSignature {
        at: u64,
    },
    /// The access list that is shown before a position isn't the one before it, or hides what has to be
    /// looked up there.
    BadDictProof {
        at: u64,
    },
    /// The author at a position may not do what the operation does.
    NotAllowed {
        at: u64,
    },
    /// The operation at a position was made at another epoch.
    StaleEpoch {
        at: u64,
        /// The epoch before the position.
        now: u64,
    },
    /// The operation at a position has a number below its author's next one.
    Replayed {
        at: u64,
        /// The author's next number.
        next: u32,
    },
    /// The operation at a position changes the access list against the law.
    BadChange {
        at: u64,
    },
    /// The operation at a position embeds a view of more positions than are before it.
    LateView {
        at: u64,
    },
    /// The view that is embedded at a position isn't one of this history, or its signature isn't valid.
    BadView {
        at: u64,
    },
    /// The leaf at a position tells another access list or epoch than those after its operation.
    WrongAfter {
        at: u64,
    },
    /// No new position holds the operation that was sent.
    Missing,
    /// The changes that are shown aren't all that there are.
    KeysMissing {
        /// How many are shown.
        found: u64,
        /// How many there are.
        needed: u64,
    },
    /// An allocation was refused.
    NoMemory,
}

/// The numbers that a report prints behind a verdict's name and position.
#[derive(Clone, Copy, Debug, PartialEq, Eq)]
pub enum Detail {
    /// None.
    Nothing,
    /// The epoch that it should have been.
    Now { now: u64 },
    /// The least number that it should have been.
    Next { next: u64 },
    /// How many there were, and how many were needed.
    Counts { found: u64, needed: u64 },
}

impl Verdict {
    /// The name that a report prints. Takes no memory.
    pub fn name(self) -> &'static str
        ensures { result.now ≡ verdict_name self }
    {
        match self {
            Verdict::Garbled => "Garbled",
            Verdict::WrongWall => "WrongWall",
            Verdict::BadServerSignature => "BadServerSignature",
            Verdict::Shorter => "Shorter",
            Verdict::Forked => "Forked",
            Verdict::BadFrom => "BadFrom",
            Verdict::BadShape => "BadShape",
            Verdict::RootMismatch => "RootMismatch",
            Verdict::TooFewVouch { .. } => "TooFewVouch",
            Verdict::BadAuthorSignature { .. } => "BadAuthorSignature",
            Verdict::BadDictProof { .. } => "BadDictProof",
            Verdict::NotAllowed { .. } => "NotAllowed",
            Verdict::StaleEpoch { .. } => "StaleEpoch",
            Verdict::Replayed { .. } => "Replayed",
            Verdict::BadChange { .. } => "BadChange",
            Verdict::LateView { .. } => "LateView",
            Verdict::BadView { .. } => "BadView",
            Verdict::WrongAfter { .. } => "WrongAfter",
            Verdict::Missing => "Missing",
            Verdict::KeysMissing { .. } => "KeysMissing",
            Verdict::NoMemory => "NoMemory",
        }
    }

    /// The position of a verdict that is of one. Takes no memory.
    pub fn position(self) -> Option<u64>
        ensures { result ≡ verdict_position self }
    {
        match self {
            Verdict::BadAuthorSignature { at }
            | Verdict::BadDictProof { at }
            | Verdict::NotAllowed { at }
            | Verdict::StaleEpoch { at, .. }
            | Verdict::Replayed { at, .. }
            | Verdict::BadChange { at }
            | Verdict::LateView { at }
            | Verdict::BadView { at }
            | Verdict::WrongAfter { at } => Some(at),
            _ => None,
        }
    }

    /// The numbers behind the name and the position. Takes no memory.
    pub fn detail(self) -> Detail
        ensures { result ≡ verdict_detail self }
    {
        match self {
            Verdict::StaleEpoch { now, .. } => Detail::Now { now },
            Verdict::Replayed { next, .. } => Detail::Next {
                next: u64::from(next),
            },
            Verdict::TooFewVouch { found, needed } => Detail::Counts {
                found: u64::from(found),
                needed: u64::from(needed),
            },
            Verdict::KeysMissing { found, needed } => Detail::Counts { found, needed },
            _ => Detail::Nothing,
        }
    }
}
