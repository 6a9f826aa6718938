ghost use Rattle.std.specs.Arc.{arc_value};
ghost use Rattle.std.specs.Prelude.{◌≡◌, IfOk, map};

use fr_bytes::NoMemory;
use std::alloc::Global;
use std::sync::Arc;

/// A further list of the same owners. `NoMemory` also stands for a refused count of owners.
pub(crate) fn shared<X: Drop>(alloc: Global, list: &[Arc<X>]) -> Result<Vec<Arc<X>>, NoMemory>
    ensures { IfOk result (λ same. map (λ x. arc_value x) same.items ≡ map (λ x. arc_value x) list.now) }
{
    Ok(Vec::from_clones(alloc, list)?)
}
