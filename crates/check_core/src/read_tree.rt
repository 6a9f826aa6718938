use hist_proof::Pruned;
use op_types::Leaf;

/// A pruned tree whose texts were read, each once, with the leaves that they spell from left to right.
#[derive(Debug, Drop)]
pub(crate) struct ReadTree {
    pub(crate) tree: Pruned,
    pub(crate) leaves: Vec<Leaf>,
}
