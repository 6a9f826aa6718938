ghost use Rattle.std.specs.Prelude.{◌≡◌, ◌≤◌, [], IfOk, Some, map};
ghost use Rattle.std.specs.List.{AllByRecursion};
ghost use Rattle.lms_tree.specs.Signer.{public_of};
ghost use Rattle.client_core.specs.Clients.{client_view, AreStarts, IsStart, opening_side};
ghost use Rattle.client_core.specs.Sides.{IsSide, sides_view};

use super::Client;
use crate::side::Side;
use crate::start::SideStart;
use fr_bytes::NoMemory;
use fr_digest::Digester;
use lms_tree::Signer;
use std::alloc::Global;
use std::marker::PhantomData;
use world_book::UserBook;

// The sides of which a user has accepted nothing, in order.
fn opening_sides(alloc: Global, user: u32, starts: Vec<SideStart>) -> Result<Vec<Side>, NoMemory>
    requires { AllByRecursion (IsStart user) starts.items }
    ensures sides { IfOk result (λ sides. sides_view sides.items ≡ map (opening_side user) starts.items) }
    ensures are_sides { IfOk result (λ sides. AllByRecursion IsSide (sides_view sides.items)) }
{
    let mut sides = Vec::new(alloc);
    for start in starts {
        let side = Side::make(alloc, user, start)?;
        sides.push(side)?;
    }
    Ok(sides)
}

impl<D: Digester> Client<D> {
    /// The client of a user, of some walls. Nothing has been accepted of any; at most 31 users of each may be in league with
    /// its server, its key tree has 1 to 6 levels, and `owned` is there exactly where the user is its owner. No two sides
    /// are of one wall, and all have the same users' keys, among them the signer's for the user. The book is empty.
    pub fn make(
        alloc: Global,
        user: u32,
        rogue: bool,
        signer: Signer,
        sides: Vec<SideStart>,
    ) -> Result<Client<D>, NoMemory>
        requires { AreStarts user (public_of signer.private signer.id signer.pair) sides.items }
        ensures { IfOk result (λ c. client_view c ≡ record {
          signer = signer;
          sides = map (opening_side user) sides.items;
          book = record {
            user = user;
            key = public_of signer.private signer.id signer.pair;
            rogue = rogue;
            took =
                [];
            signed = [];
          };
        }) }
    {
        let sides = opening_sides(alloc, user, sides)?;
        let book = UserBook::empty(alloc, user, signer.public(), rogue);
        Ok(Client {
            signer,
            sides,
            book,
            digest: PhantomData,
        })
    }
}
