use fr_bytes::{Bytes, Texts};
use op_types::View;

/// The most bytes of a reply.
pub const REPLY_BYTES_MAX: usize = 33_554_432;

/// What a client asks its server.
#[derive(Debug, Drop, PartialEq, Eq)]
pub enum Request {
    /// To show a wall.
    Look {
        /// The wall's number.
        wall: u32,
        /// How many positions the client has accepted.
        have: u64,
        /// Whether all that follow are to be shown, and none skipped.
        whole: bool,
    },
    /// To take an operation, and to show the wall then.
    Append {
        /// The wall's number.
        wall: u32,
        /// How many positions the client has accepted.
        have: u64,
        /// The operation's bytes, as they are: they needn't spell one.
        op: Bytes,
    },
    /// To show the changes of a wall's access list.
    Keys {
        /// The wall's number.
        wall: u32,
        /// How many positions the client has accepted: the changes below are asked for.
        size: u64,
    },
}

/// What a server answers.
#[derive(Debug, Drop, PartialEq, Eq)]
pub enum Reply {
    /// The wall. Where `from` is the view's size nothing is shown, and tree and lists are empty.
    Show {
        /// What the server signs of it, with the wall's number.
        view: View,
        /// The first position that is shown.
        from: u64,
        /// The bytes of the pruned history tree, as they are.
        tree: Bytes,
        /// For each position that is shown, in order, the bytes of the pruned access list before it, as they are.
        dicts: Texts,
    },
    /// Nothing was done.
    Refused {
        /// The wall's number, and 0 where the request couldn't be read.
        wall: u32,
        /// Why, as `causes` numbers it.
        cause: u8,
        /// The cause's detail, and 0 where it has none.
        number: u64,
    },
    /// The changes of the wall's access list.
    KeyOps {
        /// The wall's number.
        wall: u32,
        /// The size of the history that the tree prunes.
        size: u64,
        /// The bytes of the pruned history tree that shows the changes, as they are.
        tree: Bytes,
    },
}
