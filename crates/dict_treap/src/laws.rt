ghost use Rattle.std.specs.Prelude.{◌≢◌, ◌<◌, ℕ, IsSome, List, length};
ghost use Rattle.tree_model.specs.AccessList.{IsRising, entry_of};
ghost use Rattle.tree_model.specs.declared.entry.Entry.{Entry};

use crate::Dict;
use fr_digest::Digester;

/// Every access list has an entry, and its users rise.
pub fn lists<D: Digester>(dict: &Dict<D>)
    ensures some { 0 < length dict.now }
    ensures rising { IsRising dict.now }
{
    let _root = dict.root();
}

/// Where two users have entries, neither is the only one.
pub fn others()
    ensures { (es : List Entry) (a b : ℕ)
        → IsSome (entry_of es a) → IsSome (entry_of es b) → a ≢ b → 1 < length es }
{}
