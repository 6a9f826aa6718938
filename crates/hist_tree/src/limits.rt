/// How many items a full chunk has.
pub(crate) const CHUNK_ITEMS: usize = 32;

/// The height of the tree over a full chunk.
pub(crate) const CHUNK_LEVELS: u32 = 5;
