ghost use Rattle.std.specs.Prelude.{◌≡◌, ⊤};
ghost use Rattle.script_read.specs.Refusal.{Gives};
ghost use Rattle.script_read.specs.Elements.{every};
ghost use Rattle.script_read.specs.Known.{user_known, wall_known, both_known, command_known, session_known, serve_known, line_known, owner_known, all_known};

use crate::elements::every;
use crate::refusal::{Listed, ScriptRefusal};
use crate::script::{Command, Phase, Script, ScriptSession, ScriptWall, TamperLine};
use crate::users::has_user;
use crate::walls::has_wall;

fn user_known(script: &Script, number: u32) -> Result<(), ScriptRefusal>
    ensures { Gives (λ u. u) result (user_known script.now number) }
{
    if has_user(script.users.as_slice(), number) {
        Ok(())
    } else {
        Err(ScriptRefusal::Unknown {
            what: Listed::User,
            number,
        })
    }
}

fn wall_known(script: &Script, number: u32) -> Result<(), ScriptRefusal>
    ensures { Gives (λ u. u) result (wall_known script.now number) }
{
    if has_wall(script.walls.as_slice(), number) {
        Ok(())
    } else {
        Err(ScriptRefusal::Unknown {
            what: Listed::Wall,
            number,
        })
    }
}

/// The wall first.
#[tactic(auto, using(crate::proofs::Steps::passed), unfolding(crate::specs::Known::both_known))]
fn both_known(script: &Script, wall: u32, user: u32) -> Result<(), ScriptRefusal>
    ensures { Gives (λ u. u) result (both_known script.now wall user) }
{
    wall_known(script, wall)?;
    user_known(script, user)
}

#[tactic(auto, unfolding(crate::specs::Known::command_known))]
fn command_known(script: &Script, command: &Command) -> Result<(), ScriptRefusal>
    ensures { Gives (λ u. u) result (command_known script.now command.now) }
{
    match command {
        Command::Post { wall, .. } | Command::Read { wall } | Command::ReadAll { wall } => {
            wall_known(script, *wall)
        }
        Command::Admit { wall, user, .. } | Command::Remove { wall, user } => {
            both_known(script, *wall, *user)
        }
    }
}

fn commands_known(script: &Script, commands: &[Command]) -> Result<(), ScriptRefusal>
    ensures { Gives (λ u. u) result (every (command_known script.now) commands.now) }
{
    every(commands, |command| command_known(script, command))
}

#[tactic(auto, using(crate::proofs::Steps::passed), unfolding(crate::specs::Known::session_known))]
fn session_known(script: &Script, session: &ScriptSession) -> Result<(), ScriptRefusal>
    ensures { Gives (λ u. u) result (session_known script.now session.now) }
{
    user_known(script, session.user)?;
    commands_known(script, session.commands.as_slice())
}

fn phase_known(script: &Script, phase: &Phase) -> Result<(), ScriptRefusal>
    ensures { Gives (λ u. u) result (every (session_known script.now) phase.now) }
{
    every(phase.as_slice(), |session| session_known(script, session))
}

fn phases_known(script: &Script) -> Result<(), ScriptRefusal>
    ensures { Gives (λ u. u) result (every (every (session_known script.now)) script.now.phases) }
{
    every(script.phases.as_slice(), |phase| phase_known(script, phase))
}

fn numbers_known(script: &Script, users: &[u32]) -> Result<(), ScriptRefusal>
    ensures { Gives (λ u. u) result (every (user_known script.now) users.now) }
{
    every(users, |user| user_known(script, *user))
}

#[tactic(auto, using(crate::proofs::Steps::passed), unfolding(crate::specs::Known::serve_known))]
fn serve_known(script: &Script, wall: u32, users: &[u32]) -> Result<(), ScriptRefusal>
    ensures { Gives (λ u. u) result (serve_known script.now wall users.now) }
{
    wall_known(script, wall)?;
    numbers_known(script, users)
}

#[tactic(auto, unfolding(crate::specs::Known::line_known))]
fn line_known(script: &Script, line: &TamperLine) -> Result<(), ScriptRefusal>
    ensures { Gives (λ u. u) result (line_known script.now line.now) }
{
    match line {
        TamperLine::Flip { .. }
        | TamperLine::Cut { .. }
        | TamperLine::Add { .. }
        | TamperLine::From { .. } => Ok(()),
        TamperLine::Branch { wall, .. }
        | TamperLine::Replay { wall, .. }
        | TamperLine::Twin { wall, .. } => wall_known(script, *wall),
        TamperLine::Serve { wall, users, .. } => serve_known(script, *wall, users.as_slice()),
        TamperLine::Forge { wall, author, .. } => both_known(script, *wall, *author),
    }
}

fn lines_known(script: &Script) -> Result<(), ScriptRefusal>
    ensures { Gives (λ u. u) result (every (line_known script.now) script.now.tamper) }
{
    every(script.tamper.as_slice(), |line| line_known(script, line))
}

#[tactic(auto, unfolding(crate::specs::Known::owner_known))]
fn owner_known(script: &Script, wall: &ScriptWall) -> Result<(), ScriptRefusal>
    ensures { Gives (λ u. u) result (owner_known script.now wall.now) }
{
    user_known(script, wall.owner)
}

fn owners_known(script: &Script) -> Result<(), ScriptRefusal>
    ensures { Gives (λ u. u) result (every (owner_known script.now) script.now.walls) }
{
    every(script.walls.as_slice(), |wall| owner_known(script, wall))
}

/// Refuses the first number that isn't listed: of the owners, then of the phases, then of the tamper
/// lines.
#[tactic(auto, using(crate::proofs::Steps::passed), unfolding(crate::specs::Known::all_known))]
pub(crate) fn all_known(script: &Script) -> Result<(), ScriptRefusal>
    ensures { Gives (λ u. u) result (all_known script.now) }
{
    owners_known(script)?;
    phases_known(script)?;
    lines_known(script)
}
