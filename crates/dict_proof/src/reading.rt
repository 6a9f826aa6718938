ghost use Rattle.dict_proof.specs.Spelling.{Spells, dict_at, entry_at, hidden_at, list_at, node_at, part_at};
ghost use Rattle.dict_proof.specs.View.{list_view, part_view};
ghost use Rattle.fr_bytes.specs.Reading.{Gives, GivesAll, all_of};
ghost use Rattle.pruned_list.specs.PrunedList.{PrunedList};
ghost use Rattle.std.specs.Prelude.{◌≡◌, ◌<◌, ◌-◌, IfOk, IsErrOf, length};

use crate::limits::{ENTRY_TAG, FLAGS_MAX, HIDDEN_TAG, LEVELS_MAX, ROLE_MAX, ROLE_MIN};
use crate::parts::{Part, boxed};
use crate::pruned_dict::PrunedDict;
use fr_bytes::{Cur, ReadRefusal};
use fr_digest::Dig;
use std::alloc::Global;
use tree_model::Entry;

/// A copy of 32 bytes.
fn dig_of(bytes: &[u8]) -> Dig
    requires { length bytes.now ≡ 32 }
    ensures { result ≡ bytes.now }
{
    let mut dig = [0; 32];
    dig.copy_from_slice(bytes);
    dig
}

/// What stands behind the tag of a hidden part.
#[tactic(auto, unfolding(crate::specs::Spelling::hidden_at))]
fn hidden_at(cur: &mut Cur<'_>) -> Result<PrunedDict, ReadRefusal>
    ensures { Gives list_view result cur.new (hidden_at cur.old) }
{
    let bytes = cur.take(32)?;
    Ok(PrunedDict::Hidden(dig_of(bytes)))
}

/// An entry.
#[tactic(auto, unfolding(crate::specs::Spelling::entry_at))]
fn entry_at(cur: &mut Cur<'_>) -> Result<Entry, ReadRefusal>
    ensures { Gives (λ e. e) result cur.new (entry_at cur.old) }
{
    let user = cur.u32()?;
    let role = cur.u8_within(ROLE_MIN, ROLE_MAX)?;
    let next = cur.u32()?;
    Ok(Entry { user, role, next })
}

/// What stands behind the tag of an entry, over parts of no more than `levels` levels.
#[cycle(list)]
#[tactic(auto, unfolding(crate::specs::Spelling::node_at))]
fn node_at(alloc: Global, cur: &mut Cur<'_>, levels: u32) -> Result<PrunedDict, ReadRefusal>
    ensures { Gives list_view result cur.new (node_at (list_at levels) cur.old) }
{
    let entry = entry_at(cur)?;
    let flags = cur.u8_within(0, FLAGS_MAX)?;
    let left = part_at(alloc, cur, flags % 2 == 1, levels)?;
    let right = part_at(alloc, cur, flags > 1, levels)?;
    Ok(PrunedDict::Node { entry, left, right })
}

/// A part of no more than `levels` levels, where there is one.
#[cycle(list)]
fn part_at(
    alloc: Global,
    cur: &mut Cur<'_>,
    is_there: bool,
    levels: u32,
) -> Result<Part, ReadRefusal>
    ensures { Gives part_view result cur.new (part_at is_there (list_at levels) cur.old) }
{
    if !is_there {
        return Ok(None);
    }
    let list = list_at(alloc, cur, levels)?;
    Ok(boxed(alloc, list)?)
}

/// A pruned list of no more than `levels` levels.
#[cycle(list)]
#[tactic(auto, using(crate::proofs::Tags::read_steps))]
fn list_at(alloc: Global, cur: &mut Cur<'_>, levels: u32) -> Result<PrunedDict, ReadRefusal>
    ensures { Gives list_view result cur.new (list_at levels cur.old) }
{
    if levels == 0 {
        return Err(ReadRefusal::NotForm);
    }
    let tag = cur.u8()?;
    match tag {
        HIDDEN_TAG => hidden_at(cur),
        ENTRY_TAG => node_at(alloc, cur, levels - 1),
        _ => Err(ReadRefusal::NotForm),
    }
}

#[tactic(auto, unfolding(crate::specs::Spelling::dict_at))]
fn whole_list(alloc: Global, bytes: &[u8]) -> Result<PrunedDict, ReadRefusal>
    ensures { GivesAll list_view result (all_of dict_at bytes.now) }
{
    let mut cur = Cur::new(bytes);
    let list = list_at(alloc, &mut cur, LEVELS_MAX)?;
    if cur.left() > 0 {
        return Err(ReadRefusal::NotForm);
    }
    Ok(list)
}

/// The pruned list that `bytes` spell, all of them. `NotForm` comes exactly where they spell none: at a 41st level, of
/// which a hidden part is one, at another tag, role or number of parts, where bytes are missing or left over. No
/// more than 40 levels are walked, whatever the bytes are.
pub fn read_dict(alloc: Global, bytes: &[u8]) -> Result<PrunedDict, ReadRefusal>
    ensures found { IfOk result (λ p. Spells (list_view p) bytes.now) }
    ensures not_form { IsErrOf result ReadRefusal.NotForm → (p : PrunedList) → Spells p bytes.now → ⊥ }
    ensures exact { GivesAll list_view result (all_of dict_at bytes.now) }
{
    whole_list(alloc, bytes)
}
