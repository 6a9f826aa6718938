use dict_treap::Dict;
use fr_bytes::Bytes;
use fr_digest::Digester;
use op_types::Leaf;
use tree_model::HasText;

/// A leaf of a wall as its history keeps it.
#[derive(Drop)]
pub struct Item<D: Digester> {
    /// The leaf.
    pub leaf: Leaf,
    /// The leaf's text: its spelling.
    pub text: Bytes,
    /// The access list after the leaf's operation.
    pub list: Dict<D>,
}

impl<D: Digester> HasText for Item<D> {
    ghost text_of = { λ item. item.text };

    fn text(&self) -> &[u8] {
        self.text.as_slice()
    }
}
