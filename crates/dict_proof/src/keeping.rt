ghost use Rattle.dict_proof.specs.Keeping.{KeepsAuthor};
ghost use Rattle.dict_proof.specs.View.{change_view, list_view};
ghost use Rattle.std.specs.Prelude.{◌↔◌, IsTrue};

use crate::change::Change;
use crate::look_up::{Found, find};
use crate::pruned_dict::PrunedDict;

/// Whether a change leaves its author in the list, so that it can be applied: whoever it removes isn't the author, and
/// the search for the author doesn't end without an entry. Takes no memory.
pub fn keeps_author(p: &PrunedDict, author: u32, change: Change) -> bool
    ensures { IsTrue result ↔ KeepsAuthor (list_view p.now) author (change_view change) }
{
    match change {
        Change::None => true,
        Change::Insert(_) => true,
        Change::Remove(user) => user != author && find(p, author) != Found::Absent,
    }
}
