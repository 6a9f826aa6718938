use fr_bytes::Bytes;
use fr_digest::Dig;

/// A history tree of which a part is shown. Where it is a pruned tree of `size` leaves, its top has the height of
/// the tree of `size` leaves, and the left half of a node of height `j + 1` has `2^j` positions.
#[derive(Debug, Drop)]
pub enum Pruned {
    /// A part of which only the digest is known.
    Hidden(Dig),
    /// One position, with its text.
    Leaf(Bytes),
    /// A node whose right half holds a leaf, with its halves.
    Node(Box<Pruned>, Box<Pruned>),
    /// A node whose right half begins at or past the end, with its left half.
    Single(Box<Pruned>),
}
