ghost use Rattle.std.specs.Prelude.{◌≡◌, [], codes};
ghost use Rattle.serde_json.specs.View.{view, items_view};
ghost use Rattle.serde_json.specs.Find.{as_array};
ghost use Rattle.script_read.specs.Refusal.{Gives, found};
ghost use Rattle.script_read.specs.Elements.{each};
ghost use Rattle.script_read.specs.Phases.{room_after, room_left, has_session, session_of, phase_of};
ghost use Rattle.script_read.specs.Script.{phases_of};

use crate::commands::read_commands;
use crate::elements::elements;
use crate::object::{Object, sized_list};
use crate::refusal::{ScriptRefusal, field};
use crate::script::{Phase, ScriptSession};
use fr_bytes::Sequence;
use serde_json::Value;
use std::alloc::Global;

/// How many commands a script has at most.
const COMMANDS_MAX: usize = 2048;

/// How many commands may come behind those of these sessions.
fn room_after(room: usize, sessions: &[ScriptSession]) -> usize
    ensures { result ≡ room_after room sessions.now }
{
    sessions.iter().fold(room, |left, session| {
        left.saturating_sub(session.commands.len())
    })
}

/// How many commands may come behind those of these phases.
fn room_left(room: usize, phases: &[Phase]) -> usize
    ensures { result ≡ room_left room phases.now }
{
    phases
        .iter()
        .fold(room, |left, phase| room_after(left, phase.as_slice()))
}

/// Whether one of the sessions is the user's.
fn has_session(sessions: &[ScriptSession], user: u32) -> bool
    ensures { result ≡ has_session sessions.now user }
{
    sessions.iter().any(|session| session.user == user)
}

/// A session behind those of its phase that were read before it.
#[tactic(auto, using(crate::proofs::Steps::passed), unfolding(crate::specs::Phases::session_of))]
fn read_session(
    alloc: Global,
    room: usize,
    before: &[ScriptSession],
    value: &Value,
) -> Result<ScriptSession, ScriptRefusal>
    ensures { Gives (λ session. session) result (session_of room before.now (view value.now)) }
{
    let object = Object::of(alloc, value, "phases")?;
    let user = object.listed("user")?;
    if has_session(before, user) {
        return Err(field(alloc, "user"));
    }
    let list = object.list("do")?;
    let commands = read_commands(alloc, room_after(room, before), list)?;
    object.no_further(2)?;
    Ok(ScriptSession {
        user,
        commands: Sequence::of(commands),
    })
}

fn read_sessions(
    alloc: Global,
    room: usize,
    list: &[Value],
) -> Result<Vec<ScriptSession>, ScriptRefusal>
    ensures { Gives (λ sessions. sessions.items) result (each (session_of room) [] (items_view list.now)) }
{
    elements(
        alloc,
        list,
        |before, value| read_session(alloc, room, before, value),
    )
}

/// The list that a phase is.
fn phase_list<'a>(alloc: Global, value: &'a Value) -> Result<&'a [Value], ScriptRefusal>
    ensures { Gives (λ list. items_view list.now) result (found (codes "phases") (as_array (view value.now))) }
{
    match value.as_array() {
        Some(list) => Ok(list.as_slice()),
        None => Err(field(alloc, "phases")),
    }
}

/// A phase behind those that were read before it: at most 16 sessions.
#[tactic(auto, using(crate::proofs::Steps::passed), unfolding(crate::specs::Phases::phase_of))]
fn read_phase(alloc: Global, before: &[Phase], value: &Value) -> Result<Phase, ScriptRefusal>
    ensures { Gives (λ phase. phase) result (phase_of 2048 before.now (view value.now)) }
{
    let list = phase_list(alloc, value)?;
    let list = sized_list(alloc, list, "sessions", 0, 16)?;
    let sessions = read_sessions(alloc, room_left(COMMANDS_MAX, before), list)?;
    Ok(Sequence::of(sessions))
}

fn read_all_phases(alloc: Global, list: &[Value]) -> Result<Vec<Phase>, ScriptRefusal>
    ensures { Gives (λ phases. phases.items) result (each (phase_of 2048) [] (items_view list.now)) }
{
    elements(
        alloc,
        list,
        |before, value| read_phase(alloc, before, value),
    )
}

/// The phases of a script: at most 64, with at most 2,048 commands.
#[tactic(auto, using(crate::proofs::Steps::passed), unfolding(crate::specs::Script::phases_of))]
pub(crate) fn read_phases(script: &Object<'_>) -> Result<Vec<Phase>, ScriptRefusal>
    ensures { Gives (λ phases. phases.items) result (phases_of (view script.now.value.now)) }
{
    let list = script.list_within("phases", 0, 64)?;
    read_all_phases(script.alloc, list)
}
