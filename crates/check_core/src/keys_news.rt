use crate::read_tree::ReadTree;

/// What a reply says of the changes of a wall's access list.
#[derive(Debug, Drop)]
pub(crate) struct KeysNews {
    pub(crate) wall: u32,
    /// The size of the history that the tree prunes.
    pub(crate) size: u64,
    pub(crate) shown: ReadTree,
}
