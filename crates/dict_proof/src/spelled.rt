ghost use Rattle.dict_proof.specs.Spelling.{FitsIn, IsDig, IsEntry, IsSpelled};
ghost use Rattle.dict_proof.specs.View.{list_view, part_view};
ghost use Rattle.std.specs.Prelude.{◌↔◌, IsTrue};

use crate::limits::{LEVELS_MAX, ROLE_MAX, ROLE_MIN};
use crate::parts::Part;
use crate::pruned_dict::PrunedDict;
use fr_digest::Dig;
use tree_model::Entry;

/// Whether the role of an entry is one of the three.
fn is_entry(entry: Entry) -> bool
    ensures { IsTrue result ↔ IsEntry entry }
{
    ROLE_MIN <= entry.role && entry.role <= ROLE_MAX
}

/// A digest is in range. This is for the proof alone and computes nothing.
fn is_dig(digest: Dig)
    ensures { IsDig digest }
{}

/// Whether a part has no more than `most` levels, with all entries in range.
#[cycle(measured)]
fn is_part_within(part: &Part, most: u32) -> bool
    ensures { IsTrue result ↔ FitsIn most (part_view part.now) }
{
    match part {
        None => true,
        Some(list) => is_within(list, most),
    }
}

/// The same of a list. No more than `most` levels are walked.
#[cycle(measured)]
fn is_within(p: &PrunedDict, most: u32) -> bool
    ensures { IsTrue result ↔ FitsIn most (list_view p.now) }
{
    if most == 0 {
        return false;
    }
    match p {
        PrunedDict::Hidden(digest) => {
            is_dig(*digest);
            true
        }
        PrunedDict::Node { entry, left, right } => {
            if !is_entry(*entry) {
                return false;
            }
            if !is_part_within(left, most - 1) {
                return false;
            }
            is_part_within(right, most - 1)
        }
    }
}

/// Whether a pruned list has a spelling: it has no more than 40 levels, of which a hidden part is one, and each role is
/// 1, 2 or 3. Any list may be asked about: no more than 40 levels are walked. Takes no memory.
pub fn is_spelled(p: &PrunedDict) -> bool
    ensures { IsTrue result ↔ IsSpelled (list_view p.now) }
{
    is_within(p, LEVELS_MAX)
}
