ghost use Rattle.std.specs.Prelude.{◌≡◌, ◌++◌, OnOk, Option, Some, None};
ghost use Rattle.std.specs.Option.{option_map, option_copied};
ghost use Rattle.std.specs.String.{string_bytes};
ghost use Rattle.script_form.specs.Report.{nth, asked, asked_in_session, asked_text, place_text, verb_name, wall_asked};

use crate::outcome::Outcome;
use crate::put::{put, put_number};
use fr_bytes::NoMemory;
use script_read::{Command, Script, ScriptSession};

/// A command with the user who gave it.
#[derive(Drop)]
pub(crate) struct Asked<'a> {
    pub user: u32,
    pub command: &'a Command,
}

/// The element at a place that is counted from 1.
pub(crate) fn nth<T>(items: &[T], place: u32) -> Option<&T>
    ensures { option_copied result ≡ nth items.now place }
{
    if place == 0 {
        None
    } else {
        items.get(place as usize - 1)
    }
}

fn asked_in_session(session: &ScriptSession, place: u32) -> Option<Asked<'_>>
    ensures { option_map (λ a. (a.user, a.command.now)) result ≡ asked_in_session session.now place }
{
    match nth(session.commands.as_slice(), place) {
        Some(command) => Some(Asked {
            user: session.user,
            command,
        }),
        None => None,
    }
}

/// The command of the script that an outcome is of.
#[tactic(auto, unfolding(crate::specs::Report::asked))]
pub(crate) fn asked_at<'a>(script: &'a Script, outcome: &Outcome) -> Option<Asked<'a>>
    ensures { option_map (λ a. (a.user, a.command.now)) result ≡ asked script.now outcome.now }
{
    let phase = nth(script.phases.as_slice(), outcome.phase)?;
    let session = nth(phase.as_slice(), outcome.session)?;
    asked_in_session(session, outcome.command)
}

fn wall_asked(command: &Command) -> u32
    ensures { result ≡ wall_asked command.now }
{
    match command {
        Command::Post { wall, .. }
        | Command::Read { wall }
        | Command::ReadAll { wall }
        | Command::Admit { wall, .. }
        | Command::Remove { wall, .. } => *wall,
    }
}

fn verb_name(command: &Command) -> &'static str
    ensures { result.now ≡ verb_name command.now }
{
    match command {
        Command::Post { .. } => "post",
        Command::Read { .. } => "read",
        Command::ReadAll { .. } => "read_all",
        Command::Admit { .. } => "admit",
        Command::Remove { .. } => "remove",
    }
}

/// Where the command stands.
#[tactic(auto, unfolding(crate::specs::Report::place_text))]
pub(crate) fn put_place(out: &mut String, outcome: &Outcome) -> Result<(), NoMemory>
    ensures { OnOk result (string_bytes out.new ≡ string_bytes out.old ++ place_text outcome.now) }
{
    put_number(out, "p", u64::from(outcome.phase))?;
    put_number(out, " s", u64::from(outcome.session))?;
    put_number(out, " c", u64::from(outcome.command))?;
    Ok(())
}

/// The user, the wall and the verb.
#[tactic(auto, unfolding(crate::specs::Report::asked_text))]
fn put_asked(out: &mut String, asked: &Asked<'_>) -> Result<(), NoMemory>
    ensures { OnOk result
        (string_bytes out.new ≡ string_bytes out.old ++ asked_text (Some (asked.now.user, asked.now.command.now))) }
{
    put_number(out, " user ", u64::from(asked.user))?;
    put_number(out, " wall ", u64::from(wall_asked(asked.command)))?;
    put(out, " ")?;
    put(out, verb_name(asked.command))?;
    Ok(())
}

#[tactic(auto, unfolding(crate::specs::Report::asked_text))]
pub(crate) fn put_what(out: &mut String, script: &Script, outcome: &Outcome) -> Result<(), NoMemory>
    ensures { OnOk result (string_bytes out.new ≡ string_bytes out.old ++ asked_text (asked script.now outcome.now)) }
{
    match asked_at(script, outcome) {
        Some(asked) => put_asked(out, &asked),
        None => Ok(()),
    }
}
