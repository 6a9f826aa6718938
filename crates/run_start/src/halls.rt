//! The halls of the walls, without entries.
ghost use Rattle.std.specs.Prelude.{◌≡◌, [], map, IfOk};
ghost use Rattle.std.specs.List.{All, AllByRecursion};
ghost use Rattle.hall_core.specs.Standing as standing;
ghost use Rattle.script_read.specs.Limits.{IsScript};
ghost use Rattle.run_start.specs.Parties.{IsWallParty, facts_of};

use crate::keys::Party;
use crate::numbers::wall_at;
use fr_bytes::NoMemory;
use fr_digest::Digester;
use hall_core::Hall;
use lms_tree::UserKeys;
use script_read::Script;
use std::alloc::Global;

// The hall of a wall.
fn hall<D: Digester>(
    alloc: Global,
    script: &Script,
    keys: &UserKeys,
    party: Party,
) -> Result<Hall<D>, NoMemory>
    requires script { IsScript script.now }
    requires party { IsWallParty script.now party }
    ensures facts { IfOk result (λ hall. hall.facts ≡ facts_of script.now keys.now party) }
    ensures fresh { IfOk result (λ hall. hall.entries ≡ []) }
{
    let wall = wall_at(script, party.number);
    let users = keys.copy()?;
    Hall::make(alloc, party.number, wall.owner, wall.f, party.signer, users)
}

/// The halls of these walls, in order.
pub(crate) fn halls<D: Digester>(
    alloc: Global,
    script: &Script,
    keys: &UserKeys,
    parties: Vec<Party>,
) -> Result<Vec<Hall<D>>, NoMemory>
    requires script { IsScript script.now }
    requires parties { AllByRecursion (IsWallParty script.now) parties.items }
    ensures facts { IfOk result (λ halls. map (λ (hall : standing.Hall). hall.facts) halls.items
        ≡ map (facts_of script.now keys.now) parties.items) }
    ensures fresh { IfOk result (λ halls. All (λ hall. hall.entries ≡ []) halls.items) }
{
    let mut halls = Vec::new(alloc);
    for party in parties {
        halls.push(hall(alloc, script, keys, party)?)?;
    }
    Ok(halls)
}
