ghost use Rattle.std.specs.Prelude.{◌≡◌, [], codes};
ghost use Rattle.serde_json.specs.View.{view, items_view};
ghost use Rattle.script_read.specs.Refusal.{Gives};
ghost use Rattle.script_read.specs.Elements.{each, alone};
ghost use Rattle.script_read.specs.Fields.{word};
ghost use Rattle.script_read.specs.Tamper.{kind_words, flip_of, cut_of, add_of, from_of, branch_of, number_of, serve_of, forge_of, replay_of, twin_of, by_kind, line_of};
ghost use Rattle.script_read.specs.Script.{lines_of};

use crate::elements::elements;
use crate::object::Object;
use crate::refusal::{ScriptRefusal, field};
use crate::script::TamperLine;
use fr_bytes::Sequence;
use serde_json::Value;
use std::alloc::Global;

/// What a tamper line does.
#[derive(Clone, Copy, Debug, PartialEq, Eq)]
pub(crate) enum LineKind {
    Flip,
    Cut,
    Add,
    From,
    Branch,
    Serve,
    Forge,
    Replay,
    Twin,
}

/// The kind at the key `kind`.
#[tactic(auto, using(crate::proofs::Steps::passed), unfolding(crate::specs::Fields::word))]
fn read_kind(object: &Object<'_>) -> Result<LineKind, ScriptRefusal>
    ensures { Gives (λ kind. kind) result (word (codes "kind") kind_words (view object.now.value.now)) }
{
    let word = object.word("kind")?;
    if word == "flip" {
        Ok(LineKind::Flip)
    } else if word == "cut" {
        Ok(LineKind::Cut)
    } else if word == "add" {
        Ok(LineKind::Add)
    } else if word == "from" {
        Ok(LineKind::From)
    } else if word == "branch" {
        Ok(LineKind::Branch)
    } else if word == "serve" {
        Ok(LineKind::Serve)
    } else if word == "forge" {
        Ok(LineKind::Forge)
    } else if word == "replay" {
        Ok(LineKind::Replay)
    } else if word == "twin" {
        Ok(LineKind::Twin)
    } else {
        Err(field(object.alloc, "kind"))
    }
}

// ---- lines on the reply to a command

#[tactic(auto, using(crate::proofs::Steps::passed), unfolding(crate::specs::Tamper::flip_of))]
fn read_flip(object: &Object<'_>) -> Result<TamperLine, ScriptRefusal>
    ensures { Gives (λ line. line) result (flip_of (view object.now.value.now)) }
{
    let phase = object.number("phase")?;
    let session = object.number("session")?;
    let command = object.number("command")?;
    let byte = object.number("byte")?;
    let mask = object.within("mask", 1, 255)?;
    object.no_further(6)?;
    Ok(TamperLine::Flip {
        phase,
        session,
        command,
        byte,
        mask: mask as u8,
    })
}

#[tactic(auto, using(crate::proofs::Steps::passed), unfolding(crate::specs::Tamper::cut_of))]
fn read_cut(object: &Object<'_>) -> Result<TamperLine, ScriptRefusal>
    ensures { Gives (λ line. line) result (cut_of (view object.now.value.now)) }
{
    let phase = object.number("phase")?;
    let session = object.number("session")?;
    let command = object.number("command")?;
    let keep = object.number("keep")?;
    object.no_further(5)?;
    Ok(TamperLine::Cut {
        phase,
        session,
        command,
        keep,
    })
}

#[tactic(auto, using(crate::proofs::Steps::passed), unfolding(crate::specs::Tamper::add_of))]
fn read_add(object: &Object<'_>) -> Result<TamperLine, ScriptRefusal>
    ensures { Gives (λ line. line) result (add_of (view object.now.value.now)) }
{
    let phase = object.number("phase")?;
    let session = object.number("session")?;
    let command = object.number("command")?;
    let bytes = object.bytes("bytes", 1, 1024)?;
    object.no_further(5)?;
    Ok(TamperLine::Add {
        phase,
        session,
        command,
        bytes,
    })
}

#[tactic(auto, using(crate::proofs::Steps::passed), unfolding(crate::specs::Tamper::from_of))]
fn read_from(object: &Object<'_>) -> Result<TamperLine, ScriptRefusal>
    ensures { Gives (λ line. line) result (from_of (view object.now.value.now)) }
{
    let phase = object.number("phase")?;
    let session = object.number("session")?;
    let command = object.number("command")?;
    let from = object.number("from")?;
    object.no_further(5)?;
    Ok(TamperLine::From {
        phase,
        session,
        command,
        from,
    })
}

// ---- lines on a wall and its branches

#[tactic(auto, using(crate::proofs::Steps::passed), unfolding(crate::specs::Tamper::branch_of))]
fn read_branch(object: &Object<'_>) -> Result<TamperLine, ScriptRefusal>
    ensures { Gives (λ line. line) result (branch_of (view object.now.value.now)) }
{
    let phase = object.number("phase")?;
    let wall = object.listed("wall")?;
    let name = object.within("name", 1, 8)?;
    let of = object.number("of")?;
    let size = object.number("size")?;
    object.no_further(6)?;
    Ok(TamperLine::Branch {
        phase,
        wall,
        name: name as u8,
        of,
        size,
    })
}

/// A user's number in a list of them.
#[tactic(auto, unfolding(crate::specs::Tamper::number_of))]
fn read_number(alloc: Global, value: &Value) -> Result<u32, ScriptRefusal>
    ensures { Gives (λ number. number) result (number_of (view value.now)) }
{
    match value.as_u64() {
        Some(n) if 1 <= n && n <= 65_535 => Ok(n as u32),
        _ => Err(field(alloc, "users")),
    }
}

fn read_numbers(alloc: Global, list: &[Value]) -> Result<Vec<u32>, ScriptRefusal>
    ensures { Gives (λ numbers. numbers.items) result (each (alone number_of) [] (items_view list.now)) }
{
    elements(alloc, list, |_before, value| read_number(alloc, value))
}

#[tactic(auto, using(crate::proofs::Steps::passed), unfolding(crate::specs::Tamper::serve_of))]
fn read_serve(object: &Object<'_>) -> Result<TamperLine, ScriptRefusal>
    ensures { Gives (λ line. line) result (serve_of (view object.now.value.now)) }
{
    let phase = object.number("phase")?;
    let wall = object.listed("wall")?;
    let branch = object.number("branch")?;
    let list = object.list("users")?;
    let users = read_numbers(object.alloc, list)?;
    object.no_further(5)?;
    Ok(TamperLine::Serve {
        phase,
        wall,
        branch,
        users: Sequence::of(users),
    })
}

#[tactic(auto, using(crate::proofs::Steps::passed), unfolding(crate::specs::Tamper::forge_of))]
fn read_forge(object: &Object<'_>) -> Result<TamperLine, ScriptRefusal>
    ensures { Gives (λ line. line) result (forge_of (view object.now.value.now)) }
{
    let phase = object.number("phase")?;
    let wall = object.listed("wall")?;
    let branch = object.number("branch")?;
    let author = object.listed("author")?;
    let seq = object.number("seq")?;
    let epoch = object.number("epoch")?;
    let view = object.number("view")?;
    let body = object.bytes("body", 0, 1024)?;
    object.no_further(9)?;
    Ok(TamperLine::Forge {
        phase,
        wall,
        branch,
        author,
        seq,
        epoch,
        view,
        body,
    })
}

#[tactic(auto, using(crate::proofs::Steps::passed), unfolding(crate::specs::Tamper::replay_of))]
fn read_replay(object: &Object<'_>) -> Result<TamperLine, ScriptRefusal>
    ensures { Gives (λ line. line) result (replay_of (view object.now.value.now)) }
{
    let phase = object.number("phase")?;
    let wall = object.listed("wall")?;
    let branch = object.number("branch")?;
    let of = object.number("of")?;
    let position = object.number("position")?;
    object.no_further(6)?;
    Ok(TamperLine::Replay {
        phase,
        wall,
        branch,
        of,
        position,
    })
}

#[tactic(auto, using(crate::proofs::Steps::passed), unfolding(crate::specs::Tamper::twin_of))]
fn read_twin(object: &Object<'_>) -> Result<TamperLine, ScriptRefusal>
    ensures { Gives (λ line. line) result (twin_of (view object.now.value.now)) }
{
    let phase = object.number("phase")?;
    let wall = object.listed("wall")?;
    let branch = object.number("branch")?;
    let position = object.number("position")?;
    object.no_further(5)?;
    Ok(TamperLine::Twin {
        phase,
        wall,
        branch,
        position,
    })
}

// ---- a line

/// What stands behind the kind.
fn read_by_kind(object: &Object<'_>, kind: LineKind) -> Result<TamperLine, ScriptRefusal>
    ensures { Gives (λ line. line) result (by_kind kind (view object.now.value.now)) }
{
    match kind {
        LineKind::Flip => read_flip(object),
        LineKind::Cut => read_cut(object),
        LineKind::Add => read_add(object),
        LineKind::From => read_from(object),
        LineKind::Branch => read_branch(object),
        LineKind::Serve => read_serve(object),
        LineKind::Forge => read_forge(object),
        LineKind::Replay => read_replay(object),
        LineKind::Twin => read_twin(object),
    }
}

#[tactic(auto, using(crate::proofs::Steps::passed), unfolding(crate::specs::Tamper::line_of))]
fn read_line(alloc: Global, value: &Value) -> Result<TamperLine, ScriptRefusal>
    ensures { Gives (λ line. line) result (line_of (view value.now)) }
{
    let object = Object::of(alloc, value, "tamper")?;
    let kind = read_kind(&object)?;
    read_by_kind(&object, kind)
}

fn read_all_lines(alloc: Global, list: &[Value]) -> Result<Vec<TamperLine>, ScriptRefusal>
    ensures { Gives (λ lines. lines.items) result (each (alone line_of) [] (items_view list.now)) }
{
    elements(alloc, list, |_before, value| read_line(alloc, value))
}

/// The tamper lines of a script: at most 32.
#[tactic(auto, using(crate::proofs::Steps::passed), unfolding(crate::specs::Script::lines_of))]
pub(crate) fn read_lines(script: &Object<'_>) -> Result<Vec<TamperLine>, ScriptRefusal>
    ensures { Gives (λ lines. lines.items) result (lines_of (view script.now.value.now)) }
{
    let list = script.list_within("tamper", 0, 32)?;
    read_all_lines(script.alloc, list)
}
