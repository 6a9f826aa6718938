ghost use Rattle.dict_proof.specs.View.{list_view, part_view};
ghost use Rattle.std.specs.Prelude.{◌≡◌, IfOk};

use crate::parts::{Part, boxed};
use crate::pruned_dict::PrunedDict;
use fr_bytes::NoMemory;
use std::alloc::Global;

/// The same part.
#[cycle(copied)]
fn copy_part(alloc: Global, part: &Part) -> Result<Part, NoMemory>
    ensures { IfOk result (λ same. part_view same ≡ part_view part.now) }
{
    match part {
        None => Ok(None),
        Some(list) => {
            let list = copy_in(alloc, list)?;
            boxed(alloc, list)
        }
    }
}

#[cycle(copied)]
#[tactic(auto, using(crate::proofs::Views::list_views))]
fn copy_in(alloc: Global, p: &PrunedDict) -> Result<PrunedDict, NoMemory>
    ensures { IfOk result (λ same. list_view same ≡ list_view p.now) }
{
    match p {
        PrunedDict::Hidden(digest) => Ok(PrunedDict::Hidden(*digest)),
        PrunedDict::Node { entry, left, right } => {
            let left = copy_part(alloc, left)?;
            let right = copy_part(alloc, right)?;
            Ok(PrunedDict::Node {
                entry: *entry,
                left,
                right,
            })
        }
    }
}

/// The same list, in memory of its own.
pub fn copy(alloc: Global, p: &PrunedDict) -> Result<PrunedDict, NoMemory>
    ensures { IfOk result (λ same. list_view same ≡ list_view p.now) }
{
    copy_in(alloc, p)
}
