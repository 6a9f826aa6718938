/// The tag of a hidden part in a spelling.
pub(crate) const HIDDEN_TAG: u8 = 0;
/// The tag of a leaf in a spelling.
pub(crate) const LEAF_TAG: u8 = 1;
/// The tag of a node with two halves in a spelling.
pub(crate) const NODE_TAG: u8 = 2;
/// The tag of a node without a right half in a spelling.
pub(crate) const SINGLE_TAG: u8 = 3;

/// The most bytes that the text of a leaf has.
pub const LEAF_BYTES_MAX: u32 = 65_535;

/// The most levels of nodes that stand above a leaf or a hidden part in a spelling: enough for a tree of
/// 1,024 leaves.
pub const LEVELS_MAX: u32 = 10;
