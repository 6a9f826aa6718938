use dict_proof::Dicts;
use hist_proof::Pruned;
use op_types::{Leaves, View};

/// What a client makes of a reply that it doesn't reject.
#[derive(Debug, Drop)]
pub enum Checked {
    /// The client has accepted what the reply says.
    Same {
        /// How many positions that is.
        size: u64,
    },
    /// A history that begins with what the client has accepted, and more.
    Taken {
        /// The history's view.
        view: View,
        /// The first position that is shown.
        from: u64,
        /// The pruned tree of the history.
        proof: Pruned,
        /// The leaves at the positions from `from` on.
        leaves: Leaves,
        /// For each of these positions the pruned access list before it.
        dicts: Dicts,
    },
    /// The server refused the operation that was sent.
    Refused {
        /// Why, as `msg_form::causes` numbers it.
        cause: u8,
        /// The cause's detail.
        number: u64,
    },
}
