/// The tag of a hidden part in a spelling.
pub(crate) const HIDDEN_TAG: u8 = 0;
/// The tag of an entry in a spelling.
pub(crate) const ENTRY_TAG: u8 = 1;

/// The least role of an entry, a reader's.
pub(crate) const ROLE_MIN: u8 = 1;
/// The greatest role of an entry, the owner's.
pub(crate) const ROLE_MAX: u8 = 3;

/// The greatest number that tells which parts an entry has: 1 for the smaller users, and 2 for the greater ones.
pub(crate) const FLAGS_MAX: u8 = 3;

/// The most levels that a spelling has, of which a hidden part is one.
pub const LEVELS_MAX: u32 = 40;
