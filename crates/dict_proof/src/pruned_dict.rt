use fr_bytes::Sequence;
use fr_digest::Dig;
use tree_model::Entry;

/// An access list of which a part is shown: the treap of its entries, in which the entry of greatest priority is
/// on top and smaller users are left of greater ones, with some of its parts replaced by their digests.
///
/// A value needn't be a part of any access list: what is read off a reply may be of any shape.
#[derive(Debug, Drop)]
pub enum PrunedDict {
    /// A part with entries, of which only the digest is known.
    Hidden(Dig),
    /// An entry over the parts of smaller and of greater users.
    Node {
        /// The entry.
        entry: Entry,
        /// The part of smaller users: `None` where it has no entries.
        left: Option<Box<PrunedDict>>,
        /// The part of greater users: `None` where it has no entries.
        right: Option<Box<PrunedDict>>,
    },
}

/// A list of pruned access lists.
pub type Dicts = Sequence<PrunedDict>;
