ghost use Rattle.std.specs.Prelude.{◌≡◌, map, IfOk};
ghost use Rattle.run_end.specs.Ends.{wall_end};

use fr_bytes::NoMemory;
use fr_digest::Digester;
use hall_core::Hall;
use script_form::{WallEnd, WallEnds};
use std::alloc::Global;

/// The walls of these halls, in the halls' order. Nothing is digested: each root is the one that the hall's view has.
pub fn wall_ends<D: Digester>(alloc: Global, halls: &[Hall<D>]) -> Result<WallEnds, NoMemory>
    ensures { IfOk result (λ ends. ends ≡ map (wall_end D.digest_of) halls.now) }
{
    let mut ends = Vec::new(alloc);
    for hall in halls {
        ends.push(end_of(hall)?)?;
    }
    Ok(WallEnds::of(ends))
}

// The wall of one hall.
fn end_of<D: Digester>(hall: &Hall<D>) -> Result<WallEnd, NoMemory>
    ensures { IfOk result (λ end. end ≡ wall_end D.digest_of hall.now) }
{
    let snapshot = hall.seen()?;
    let view = snapshot.view();
    Ok(WallEnd {
        wall: view.wall,
        size: view.size,
        root: view.root,
    })
}
