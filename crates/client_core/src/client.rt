ghost use Rattle.std.specs.Prelude.{◌≡◌, false, Some, ℕ};
ghost use Rattle.world_book.specs.Kept.{KeptBook};
ghost use Rattle.client_core.specs.Keeping.{AreMade, notes_of, users_of};
ghost use Rattle.client_core.specs.Sides.{SideView, side_of, sides_view};
ghost use Rattle.signed_ops.specs.Signed.{key_of};

use crate::side::Side;
use fr_digest::Digester;
use lms_tree::Signer;
use std::marker::{Model, PhantomData};
use world_book::UserBook;

mod asking;
mod making;
mod reading;
mod taking;

/// A user's client of some walls. The digest of the walls' histories and access lists is `D`'s.
///
/// Contracts see the signer, what is kept of each wall, and the user's book.
#[derive(Drop)]
pub struct Client<D: Digester> {
    signer: Signer,
    sides: Vec<Side>,
    book: UserBook,
    digest: PhantomData<D>,
}

impl<D: Digester> Model for Client<D> {
    ghost use Rattle.client_core.specs.Clients.{Standing, client_view};
    ghost use Rattle.client_core.specs.Keeping.{Keeps};
    ghost use Rattle.client_core.specs.contracts.side.Side as side_type;
    ghost use Rattle.world_book.specs.contracts.book.UserBook as book_type;
    ghost use Rattle.std.specs.Coded.{codes};

    ghost Value = { Standing };

    ghost coded = { Prim.hlevel (codes, side_type.the_row.coded, book_type.the_row.coded) };

    ghost view = { λ c. record { signer = c.signer; sides = c.sides.items; book = c.book } };

    ghost invariant = { λ c. Keeps D.digest_of
        (client_view (record { signer = c.signer; sides = c.sides.items; book = c.book })) };
}

impl<D: Digester> Client<D> {
    /// The user's book, which is kept with the notes and the users of the client's walls. Each operation in it is made by
    /// the rules. Takes no memory.
    pub fn book(&self) -> &UserBook
        ensures value { result.now ≡ self.now.book }
        ensures kept { KeptBook D.digest_of (notes_of (sides_view self.now.sides)) (users_of
            (sides_view self.now.sides)) result.now }
        ensures made { result.now.rogue ≡ false → (wall : ℕ) (s : SideView)
            → side_of wall (sides_view self.now.sides) ≡ Some s → AreMade result.now s }
    {
        &self.book
    }

    /// The user's book, when the client ends. It is kept with the notes and the users of the client's walls, among whom the
    /// user has the book's key, and each operation in it is made by the rules. Takes no memory.
    pub fn end(self) -> UserBook
        ensures value { result ≡ self.book }
        ensures key { (wall : ℕ) (s : SideView) → side_of wall (sides_view self.sides) ≡ Some s
            → key_of (users_of (sides_view self.sides)) result.user ≡ Some result.key }
        ensures kept { KeptBook D.digest_of (notes_of (sides_view self.sides)) (users_of
            (sides_view self.sides)) result }
        ensures made { result.rogue ≡ false → (wall : ℕ) (s : SideView) → side_of wall (sides_view self.sides)
            ≡ Some s → AreMade result s }
    {
        self.book
    }
}
