ghost use Rattle.dict_proof.specs.View.{list_view, part_view};
ghost use Rattle.pruned_list.specs.PrunedList.{node};
ghost use Rattle.std.specs.Prelude.{◌≡◌, IfOk};

use crate::pruned_dict::PrunedDict;
use fr_bytes::NoMemory;
use std::alloc::Global;
use tree_model::Entry;

/// A part of a pruned list: `None` where it has no entries.
pub(crate) type Part = Option<Box<PrunedDict>>;

/// What stands in a box. The box keeps its place for what comes next.
pub(crate) fn taken(place: &mut Box<PrunedDict>) -> PrunedDict
    ensures { result ≡ place.old.value }
{
    Box::replace(place, PrunedDict::Hidden([0; 32]))
}

/// An entry over its parts, in the memory of another.
#[tactic(auto, using(crate::proofs::Views::list_views))]
pub(crate) fn over(mut place: Box<PrunedDict>, entry: Entry, left: Part, right: Part) -> Part
    ensures { part_view result ≡ node entry (part_view left) (part_view right) }
{
    *place = PrunedDict::Node { entry, left, right };
    Some(place)
}

/// An entry over its parts, in memory of its own.
#[tactic(auto, using(crate::proofs::Views::list_views))]
pub(crate) fn boxed_over(
    alloc: Global,
    entry: Entry,
    left: Part,
    right: Part,
) -> Result<Part, NoMemory>
    ensures { IfOk result (λ part. part_view part ≡ node entry (part_view left) (part_view right)) }
{
    boxed(alloc, PrunedDict::Node { entry, left, right })
}

/// The part that this list is.
pub(crate) fn boxed(alloc: Global, list: PrunedDict) -> Result<Part, NoMemory>
    ensures { IfOk result (λ part. part_view part ≡ list_view list) }
{
    Ok(Some(Box::new(alloc, list)?))
}
