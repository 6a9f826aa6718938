ghost use Rattle.dict_proof.specs.View.{list_view, sought_view};
ghost use Rattle.pruned_list.specs.PrunedList.{seek};
ghost use Rattle.std.specs.Prelude.{◌≡◌};

use crate::pruned_dict::PrunedDict;
use tree_model::Entry;

/// What a search for a user finds in a pruned list.
#[derive(Clone, Copy, Debug, PartialEq, Eq)]
pub enum Found {
    /// The user's entry.
    Entry(Entry),
    /// An end without an entry.
    Absent,
    /// A hidden part.
    Hid,
}

/// What the search for a user finds, from the top to smaller users on the left and to greater ones on the
/// right: `Hid` exactly where it meets a hidden part. Any list may be searched. Takes no memory.
#[tactic(auto, using(crate::proofs::Views::list_views), unfolding(pruned_list::specs::PrunedList::seek))]
pub fn find(p: &PrunedDict, user: u32) -> Found
    ensures { sought_view result ≡ seek (list_view p.now) user }
{
    match p {
        PrunedDict::Hidden(_) => Found::Hid,
        PrunedDict::Node { entry, left, right } => {
            if user == entry.user {
                return Found::Entry(*entry);
            }
            let next = if user < entry.user { left } else { right };
            match next {
                None => Found::Absent,
                Some(next) => find(next, user),
            }
        }
    }
}
