ghost use Rattle.std.specs.Prelude.{◌≡◌, []};
ghost use Rattle.serde_json.specs.View.{view, items_view};
ghost use Rattle.script_read.specs.Refusal.{Gives};
ghost use Rattle.script_read.specs.Elements.{each};
ghost use Rattle.script_read.specs.Walls.{has_wall, wall_of};
ghost use Rattle.script_read.specs.Script.{walls_of};

use crate::elements::elements;
use crate::object::Object;
use crate::refusal::{ScriptRefusal, field};
use crate::script::ScriptWall;
use serde_json::Value;
use std::alloc::Global;

/// Whether one of the walls has the number.
pub(crate) fn has_wall(walls: &[ScriptWall], number: u32) -> bool
    ensures { result ≡ has_wall walls.now number }
{
    walls.iter().any(|wall| wall.wall == number)
}

/// A wall behind those that were read before it.
#[tactic(auto, using(crate::proofs::Steps::passed), unfolding(crate::specs::Walls::wall_of))]
fn read_wall(
    alloc: Global,
    before: &[ScriptWall],
    value: &Value,
) -> Result<ScriptWall, ScriptRefusal>
    ensures { Gives (λ wall. wall) result (wall_of before.now (view value.now)) }
{
    let object = Object::of(alloc, value, "walls")?;
    let wall = object.listed("wall")?;
    if has_wall(before, wall) {
        return Err(field(alloc, "wall"));
    }
    let owner = object.listed("owner")?;
    let f = object.limited("f", 0, 31)?;
    let depth = object.limited("depth", 1, 6)?;
    let master = object.digits("master")?;
    let private = object.digits("private")?;
    let id = object.digits("id")?;
    let ots = object.within("ots", 1, 4)?;
    object.no_further(8)?;
    Ok(ScriptWall {
        wall,
        owner,
        f,
        depth: depth as u8,
        master,
        private,
        id,
        ots,
    })
}

fn read_all_walls(alloc: Global, list: &[Value]) -> Result<Vec<ScriptWall>, ScriptRefusal>
    ensures { Gives (λ walls. walls.items) result (each wall_of [] (items_view list.now)) }
{
    elements(alloc, list, |before, value| read_wall(alloc, before, value))
}

/// The walls of a script: 1 to 8.
#[tactic(auto, using(crate::proofs::Steps::passed), unfolding(crate::specs::Script::walls_of))]
pub(crate) fn read_walls(script: &Object<'_>) -> Result<Vec<ScriptWall>, ScriptRefusal>
    ensures { Gives (λ walls. walls.items) result (walls_of (view script.now.value.now)) }
{
    let list = script.list_within("walls", 1, 8)?;
    read_all_walls(script.alloc, list)
}
