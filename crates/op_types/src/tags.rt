//! The tags of the formats, each named once: the first byte of a kind, and of what is signed.

/// The tag of a post.
pub const POST_TAG: u8 = 0;

/// The tag of an admission.
pub const ADMIT_TAG: u8 = 1;

/// The tag of a removal.
pub const REMOVE_TAG: u8 = 2;

/// The tag of a view's message.
pub const VIEW_MESSAGE_TAG: u8 = 0x10;

/// The tag of an operation's message.
pub const OP_MESSAGE_TAG: u8 = 0x11;
