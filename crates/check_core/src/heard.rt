use crate::read_tree::ReadTree;
use dict_proof::Dicts;
use op_types::View;

/// A view and what a reply shows of what is new.
#[derive(Debug, Drop)]
pub(crate) struct News {
    pub(crate) view: View,
    /// The first position that is shown.
    pub(crate) from: u64,
    pub(crate) shown: ReadTree,
    /// For each position from `from` on the access list before it.
    pub(crate) lists: Dicts,
}

/// What the bytes of a reply say.
#[derive(Debug, Drop)]
pub(crate) enum Heard {
    /// A view, and nothing of what is new.
    Bare(View),
    /// A view with what is new.
    News(News),
    /// A refusal of the operation that was sent.
    Refused { wall: u32, cause: u8, number: u64 },
}
