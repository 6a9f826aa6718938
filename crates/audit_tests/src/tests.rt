ghost use Rattle.std.specs.Prelude.{◌≡◌, [], IfOk};
ghost use Rattle.fr_digest.specs.Digest.{Digest};
ghost use Rattle.world_book.specs.Kept.{Kept};

use audit_run::audit;
use fr_digest::{Digester, Sha, Short};
use std::alloc::Global;
use std::test::Fail;
use world_book::{Log, World};

/// A world of nobody.
fn no_world(alloc: Global) -> World
    ensures { (d : Digest) → Kept d result }
{
    World {
        users: Log::empty(alloc),
        walls: Log::empty(alloc),
    }
}

/// How many records and how many grounded ones an audit counts in a world of nobody.
fn counts<D: Digester>(alloc: Global) -> Option<(u64, u64)> {
    let world = no_world(alloc);
    match audit::<D>(alloc, &world) {
        Ok(sound) => Some((sound.records, sound.grounded)),
        Err(_) => None,
    }
}

#[test]
fn a_world_of_nobody_is_sound(rt: HostRuntime) -> Result<(), Fail> {
    assert_eq!(rt; counts::<Sha>(rt.alloc()), Some((0, 0)));
    assert_eq!(rt; counts::<Short>(rt.alloc()), Some((0, 0)));
    Ok(())
}
