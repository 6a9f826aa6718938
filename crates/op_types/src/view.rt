use fr_bytes::Bytes;
use fr_digest::Dig;

/// What a server signed of a wall: its first `size` operations and their root.
///
/// A view of size 0 shows nothing: its root is 32 zero bytes, and it has no signature.
#[derive(Debug, Drop, PartialEq, Eq)]
pub struct View {
    /// The number of the wall.
    pub wall: u32,
    /// How many operations the view covers.
    pub size: u64,
    /// The root of the history tree of these operations' leaves.
    pub root: Dig,
    /// The server's signature over the view's message.
    pub sig: Bytes,
}
