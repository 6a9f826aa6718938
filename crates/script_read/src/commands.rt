ghost use Rattle.std.specs.Prelude.{◌≡◌, [], codes};
ghost use Rattle.serde_json.specs.View.{view, items_view};
ghost use Rattle.script_read.specs.Refusal.{Gives};
ghost use Rattle.script_read.specs.Elements.{each};
ghost use Rattle.script_read.specs.Fields.{word};
ghost use Rattle.script_read.specs.Commands.{verb_words, role_words, post_of, read_of, read_all_of, admit_of, remove_of, by_verb, command_of};

use crate::elements::elements;
use crate::object::Object;
use crate::refusal::{ScriptRefusal, field, limit};
use crate::script::Command;
use op_types::{READER, WRITER};
use serde_json::Value;
use std::alloc::Global;

/// What a command asks for.
#[derive(Clone, Copy, Debug, PartialEq, Eq)]
pub(crate) enum Verb {
    Post,
    Read,
    ReadAll,
    Admit,
    Remove,
}

/// The verb at the key `do`.
#[tactic(auto, using(crate::proofs::Steps::passed), unfolding(crate::specs::Fields::word))]
fn read_verb(object: &Object<'_>) -> Result<Verb, ScriptRefusal>
    ensures { Gives (λ verb. verb) result (word (codes "do") verb_words (view object.now.value.now)) }
{
    let word = object.word("do")?;
    if word == "post" {
        Ok(Verb::Post)
    } else if word == "read" {
        Ok(Verb::Read)
    } else if word == "read_all" {
        Ok(Verb::ReadAll)
    } else if word == "admit" {
        Ok(Verb::Admit)
    } else if word == "remove" {
        Ok(Verb::Remove)
    } else {
        Err(field(object.alloc, "do"))
    }
}

/// The role at the key `role`: a reader's or a writer's.
#[tactic(auto, using(crate::proofs::Steps::passed), unfolding(crate::specs::Fields::word))]
fn read_role(object: &Object<'_>) -> Result<u8, ScriptRefusal>
    ensures { Gives (λ role. role) result (word (codes "role") role_words (view object.now.value.now)) }
{
    let word = object.word("role")?;
    if word == "reader" {
        Ok(READER)
    } else if word == "writer" {
        Ok(WRITER)
    } else {
        Err(field(object.alloc, "role"))
    }
}

#[tactic(auto, using(crate::proofs::Steps::passed), unfolding(crate::specs::Commands::post_of))]
fn read_post(object: &Object<'_>, wall: u32) -> Result<Command, ScriptRefusal>
    ensures { Gives (λ command. command) result (post_of wall (view object.now.value.now)) }
{
    let text = object.text("text", 1024)?;
    object.no_further(3)?;
    Ok(Command::Post { wall, text })
}

#[tactic(auto, using(crate::proofs::Steps::passed), unfolding(crate::specs::Commands::read_of))]
fn read_read(object: &Object<'_>, wall: u32) -> Result<Command, ScriptRefusal>
    ensures { Gives (λ command. command) result (read_of wall (view object.now.value.now)) }
{
    object.no_further(2)?;
    Ok(Command::Read { wall })
}

#[tactic(auto, using(crate::proofs::Steps::passed), unfolding(crate::specs::Commands::read_all_of))]
fn read_read_all(object: &Object<'_>, wall: u32) -> Result<Command, ScriptRefusal>
    ensures { Gives (λ command. command) result (read_all_of wall (view object.now.value.now)) }
{
    object.no_further(2)?;
    Ok(Command::ReadAll { wall })
}

#[tactic(auto, using(crate::proofs::Steps::passed), unfolding(crate::specs::Commands::admit_of))]
fn read_admit(object: &Object<'_>, wall: u32) -> Result<Command, ScriptRefusal>
    ensures { Gives (λ command. command) result (admit_of wall (view object.now.value.now)) }
{
    let user = object.listed("user")?;
    let role = read_role(object)?;
    object.no_further(4)?;
    Ok(Command::Admit { wall, user, role })
}

#[tactic(auto, using(crate::proofs::Steps::passed), unfolding(crate::specs::Commands::remove_of))]
fn read_remove(object: &Object<'_>, wall: u32) -> Result<Command, ScriptRefusal>
    ensures { Gives (λ command. command) result (remove_of wall (view object.now.value.now)) }
{
    let user = object.listed("user")?;
    object.no_further(3)?;
    Ok(Command::Remove { wall, user })
}

/// What stands behind the verb and the wall.
fn read_by_verb(object: &Object<'_>, verb: Verb, wall: u32) -> Result<Command, ScriptRefusal>
    ensures { Gives (λ command. command) result (by_verb verb wall (view object.now.value.now)) }
{
    match verb {
        Verb::Post => read_post(object, wall),
        Verb::Read => read_read(object, wall),
        Verb::ReadAll => read_read_all(object, wall),
        Verb::Admit => read_admit(object, wall),
        Verb::Remove => read_remove(object, wall),
    }
}

/// A command behind those of its session that were read before it, where `room` commands had room.
#[tactic(auto, using(crate::proofs::Steps::passed), unfolding(crate::specs::Commands::command_of))]
fn read_command(
    alloc: Global,
    room: usize,
    before: &[Command],
    value: &Value,
) -> Result<Command, ScriptRefusal>
    ensures { Gives (λ command. command) result (command_of room before.now (view value.now)) }
{
    let object = Object::of(alloc, value, "do")?;
    if room <= before.len() {
        return Err(limit(alloc, "commands"));
    }
    let verb = read_verb(&object)?;
    let wall = object.listed("wall")?;
    read_by_verb(&object, verb, wall)
}

/// The commands of a session, where `room` of them have room.
pub(crate) fn read_commands(
    alloc: Global,
    room: usize,
    list: &[Value],
) -> Result<Vec<Command>, ScriptRefusal>
    ensures { Gives (λ commands. commands.items) result (each (command_of room) [] (items_view list.now)) }
{
    elements(
        alloc,
        list,
        |before, value| read_command(alloc, room, before, value),
    )
}
