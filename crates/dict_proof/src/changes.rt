ghost use Rattle.dict_proof.specs.Ends.{Leaves};
ghost use Rattle.dict_proof.specs.Keeping.{KeepsAuthor};
ghost use Rattle.dict_proof.specs.View.{change_view, list_view, part_view};
ghost use Rattle.pruned_list.specs.PrunedList.{PrunesDict, carry, changed, insert, over, remove, set_next, split};
ghost use Rattle.std.specs.Option.{option_map};
ghost use Rattle.std.specs.Prelude.{◌≡◌, IfOk, IsErrOf, List, None, Some};
ghost use Rattle.fr_digest.specs.Digest.{Digest};
ghost use Rattle.tree_model.specs.AccessList.{FitsChange, IsRising, changed_set};
ghost use Rattle.tree_model.specs.declared.entry.Entry.{Entry};

use crate::change::{Change, DictEnd};
use crate::joining::{join, split};
use crate::parts::{Part, boxed, boxed_over, over, taken};
use crate::pruned_dict::PrunedDict;
use fr_bytes::NoMemory;
use std::alloc::Global;
use tree_model::{Entry, above};

/// The part in which this user's next number is `next`: `None` where the search meets a hidden part.
#[tactic(auto, using(crate::proofs::Steps::set_next_steps))]
fn set_next(part: Part, user: u32, next: u32) -> Option<Part>
    ensures { option_map part_view result ≡ set_next user next (part_view part) }
{
    let Some(mut top) = part else {
        return Some(None);
    };
    match taken(&mut top) {
        PrunedDict::Hidden(_) => None,
        PrunedDict::Node { entry, left, right } => {
            if user == entry.user {
                let entry = Entry { next, ..entry };
                return Some(over(top, entry, left, right));
            }
            if user < entry.user {
                let left = set_next(left, user, next)?;
                return Some(over(top, entry, left, right));
            }
            let right = set_next(right, user, next)?;
            Some(over(top, entry, left, right))
        }
    }
}

/// The entry over what the part is split into at its user: `None` where a hidden part must be entered.
fn put_over(alloc: Global, part: Part, entry: Entry) -> Result<Option<Part>, NoMemory>
    ensures { IfOk result (λ made. option_map part_view made ≡ option_map (over entry) (split (part_view part) entry.user)) }
{
    match split(part, entry.user) {
        None => Ok(None),
        Some((left, right)) => Ok(Some(boxed_over(alloc, entry, left, right)?)),
    }
}

/// The part with this entry in the place of its user and priority: `None` where a hidden part must be entered.
#[tactic(auto, using(crate::proofs::Steps::insert_steps))]
fn insert(alloc: Global, part: Part, entry: Entry) -> Result<Option<Part>, NoMemory>
    ensures { IfOk result (λ made. option_map part_view made ≡ insert entry (part_view part)) }
{
    let mut top = match part {
        None => {
            let part = boxed_over(alloc, entry, None, None)?;
            return Ok(Some(part));
        }
        Some(top) => top,
    };
    match taken(&mut top) {
        PrunedDict::Hidden(_) => Ok(None),
        PrunedDict::Node {
            entry: upper,
            left,
            right,
        } => {
            if !above(upper.user, entry.user) {
                let made = put_over(alloc, over(top, upper, left, right), entry)?;
                return Ok(made);
            }
            if entry.user < upper.user {
                let Some(left) = insert(alloc, left, entry)? else {
                    return Ok(None);
                };
                return Ok(Some(over(top, upper, left, right)));
            }
            let Some(right) = insert(alloc, right, entry)? else {
                return Ok(None);
            };
            Ok(Some(over(top, upper, left, right)))
        }
    }
}

/// The part without this user's entry, in whose place its parts are joined: `None` where a hidden part must be
/// entered.
#[tactic(auto, using(crate::proofs::Steps::remove_steps))]
fn remove(part: Part, user: u32) -> Option<Part>
    ensures { option_map part_view result ≡ remove user (part_view part) }
{
    let Some(mut top) = part else {
        return Some(None);
    };
    match taken(&mut top) {
        PrunedDict::Hidden(_) => None,
        PrunedDict::Node { entry, left, right } => {
            if user == entry.user {
                return join(left, right);
            }
            if user < entry.user {
                let left = remove(left, user)?;
                return Some(over(top, entry, left, right));
            }
            let right = remove(right, user)?;
            Some(over(top, entry, left, right))
        }
    }
}

/// What a change leaves of a part: `None` where it must enter a hidden part.
fn carry(alloc: Global, part: Part, change: Change) -> Result<Option<Part>, NoMemory>
    ensures { IfOk result (λ made. option_map part_view made ≡ carry (change_view change) (part_view part)) }
{
    match change {
        Change::None => Ok(Some(part)),
        Change::Insert(entry) => insert(alloc, part, entry),
        Change::Remove(user) => Ok(remove(part, user)),
    }
}

/// What an operation leaves of a part: its author's next number is set, and then the change is made.
fn changed(
    alloc: Global,
    part: Part,
    author: u32,
    next: u32,
    change: Change,
) -> Result<Option<Part>, NoMemory>
    ensures { IfOk result (λ made. option_map part_view made ≡ changed (part_view part) author next (change_view change)) }
{
    match set_next(part, author, next) {
        None => Ok(None),
        Some(part) => carry(alloc, part, change),
    }
}

/// What an operation leaves of a pruned list.
fn changed_list(
    alloc: Global,
    p: PrunedDict,
    author: u32,
    next: u32,
    change: Change,
) -> Result<PrunedDict, DictEnd>
    requires keeps { KeepsAuthor (list_view p) author (change_view change) }
    ensures value { IfOk result (λ q. changed (list_view p) author next (change_view change) ≡ Some (list_view q)) }
    ensures exact { Leaves result (changed (list_view p) author next (change_view change)) }
{
    let part = boxed(alloc, p)?;
    match changed(alloc, part, author, next, change)? {
        None => Err(DictEnd::Hid),
        Some(None) => unreachable!(),
        Some(Some(top)) => Ok(Box::into_inner(top)),
    }
}

/// What an operation leaves of any pruned list: its author's next number is set to `next`, and then the change is
/// made. `Hid` comes exactly where the search for the author, the way to an inserted entry's place, the
/// splitting of what stood there, the search for a removed user or the joining of its parts must enter a
/// hidden part.
///
/// What stays of the list is moved. Memory is taken for the top and for an inserted entry.
pub fn apply(
    alloc: Global,
    p: PrunedDict,
    author: u32,
    next: u32,
    change: Change,
) -> Result<PrunedDict, DictEnd>
    requires keeps { KeepsAuthor (list_view p) author (change_view change) }
    ensures value { IfOk result (λ q. changed (list_view p) author next (change_view change) ≡ Some (list_view q)) }
    ensures hid { IsErrOf result DictEnd.Hid → changed (list_view p) author next (change_view change) ≡ None }
    ensures pruning { (d : Digest) (E : List Entry) → IsRising E → FitsChange E author (change_view change)
        → PrunesDict d (list_view p) E
        → IfOk result (λ q. PrunesDict d (list_view q) (changed_set E author next (change_view change))) }
    ensures exact { Leaves result (changed (list_view p) author next (change_view change)) }
{
    changed_list(alloc, p, author, next, change)
}
