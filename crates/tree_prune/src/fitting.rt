ghost use Rattle.dict_proof.specs.View.{change_view};
ghost use Rattle.std.specs.Prelude.{◌≡◌, ◌↔◌, IsTrue, None};
ghost use Rattle.tree_model.specs.AccessList.{FitsChange, IsListed, entry_of};

use dict_proof::Change;
use dict_treap::Dict;
use fr_digest::Digester;

/// Whether a user is in an access list.
fn is_listed<D: Digester>(d: &Dict<D>, user: u32) -> bool
    ensures { IsTrue result ↔ IsListed d.now user }
{
    match d.get(user) {
        None => false,
        Some(_) => true,
    }
}

/// Whether a user isn't in an access list.
fn is_free<D: Digester>(d: &Dict<D>, user: u32) -> bool
    ensures { IsTrue result ↔ (entry_of d.now user ≡ None) }
{
    match d.get(user) {
        None => true,
        Some(_) => false,
    }
}

/// Whether an author may make a change of an access list: the author is in it, a user who comes in isn't, and a user who
/// goes is in it and isn't the author. Takes no memory.
pub fn fits_change<D: Digester>(d: &Dict<D>, author: u32, change: Change) -> bool
    ensures { IsTrue result ↔ FitsChange d.now author (change_view change) }
{
    if !is_listed(d, author) {
        return false;
    }
    match change {
        Change::None => true,
        Change::Insert(entry) => is_free(d, entry.user),
        Change::Remove(user) => user != author && is_listed(d, user),
    }
}
