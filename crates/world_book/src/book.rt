ghost use Rattle.std.specs.Prelude.{◌≡◌, [], ◌∷◌, ◌++◌, OnOk, OnErr};

use crate::log::Log;
use crate::took::{Signed, SignedOps, Took, Tooks};
use fr_bytes::NoMemory;
use lms_tree::PublicKey;
use op_types::Op;
use std::alloc::Global;

/// What is kept of a user in a run: the replies that its client took and the operations that it signed, each in order.
/// Of a rogue nothing is kept.
#[derive(Debug, Drop)]
pub struct UserBook {
    /// The user.
    pub user: u32,
    /// The user's public key.
    pub key: PublicKey,
    /// Whether the user's client may do as it likes.
    pub rogue: bool,
    /// The replies that it took, in order.
    pub took: Tooks,
    /// The operations that it signed, in order.
    pub signed: SignedOps,
}

impl UserBook {
    /// The empty book of a user. Takes no memory.
    pub fn empty(alloc: Global, user: u32, key: PublicKey, rogue: bool) -> UserBook
        ensures { result ≡ record { user = user; key = key; rogue = rogue; took = []; signed = [] } }
    {
        UserBook {
            user,
            key,
            rogue,
            took: Log::empty(alloc),
            signed: Log::empty(alloc),
        }
    }

    /// Adds a reply that the user's client took, as the last.
    ///
    /// # Errors
    /// `NoMemory`. The book is then as before, and the record is dropped.
    pub fn add_took(&mut self, took: Took) -> Result<(), NoMemory>
        ensures added { OnOk result (self.new ≡ record self.old { took = self.old.took ++ took ∷ [] }) }
        ensures unchanged { OnErr result (self.new ≡ self.old) }
    {
        self.took.push(took)
    }

    /// Adds an operation that the user's client signed, as the last.
    ///
    /// # Errors
    /// `NoMemory`. The book is then as before, and the operation is dropped.
    pub fn add_signed(&mut self, op: Op) -> Result<(), NoMemory>
        ensures added { OnOk result (self.new
            ≡ record self.old { signed = self.old.signed ++ (record { user = self.old.user; op = op }) ∷ [] }) }
        ensures unchanged { OnErr result (self.new ≡ self.old) }
    {
        let user = self.user;
        self.signed.push(Signed { user, op })
    }
}

/// A list of users' books.
pub type UserBooks = Log<UserBook>;
