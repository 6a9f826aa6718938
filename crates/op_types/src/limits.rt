//! The ranges of the parts of an operation, each named once.

/// The greatest number that an operation of an author may have: the next one still fits 32 bits.
pub const SEQ_MAX: u32 = 4_294_967_294;

/// The greatest size of a view: a wall has no more operations.
pub const VIEW_SIZE_MAX: u64 = 1_024;

/// The most bytes of a post's body.
pub const BODY_BYTES_MAX: u32 = 1_024;

/// The most bytes of a signature.
pub const SIGNATURE_BYTES_MAX: u32 = 9_324;

/// The greatest slot of a key tree.
pub const SLOT_MAX: u8 = 63;

/// The most wraps of a change.
pub const WRAPS_MAX: u8 = 12;

/// The least node of a key tree that has a parent.
pub const CHILD_MIN: u32 = 2;

/// The greatest node of a key tree.
pub const CHILD_MAX: u32 = 127;
