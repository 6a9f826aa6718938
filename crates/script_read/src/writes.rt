ghost use Rattle.std.specs.Prelude.{◌≡◌, ◌-◌, ◌==◌, ◌<◌, ◌^◌, count_by, sum_by};
ghost use Rattle.script_read.specs.Refusal.{Gives};
ghost use Rattle.script_read.specs.Writes.{is_write, session_writes, phase_writes, writes, signatures, overspends, lower, overspender, signs_enough};

use crate::refusal::ScriptRefusal;
use crate::script::{Command, Phase, Script, ScriptSession, ScriptUser};

fn count_writes(commands: &[Command]) -> usize
    ensures { result ≡ count_by is_write commands.now }
{
    commands.iter().filter(|command| command.is_write()).count()
}

/// How many messages a key of the LMS typecode 5 or 6 signs.
fn signatures(lms: u32) -> usize
    ensures value { result ≡ signatures lms }
    ensures small { result < 2 ^ 11 }
{
    if lms == 5 { 32 } else { 1024 }
}

/// What is left of `room` behind the user's writes in a session.
fn left_in_session(room: usize, user: u32, session: &ScriptSession) -> usize
    ensures { result ≡ room - session_writes user session.now }
{
    if session.user == user {
        room.saturating_sub(count_writes(session.commands.as_slice()))
    } else {
        room
    }
}

fn left_in_phase(room: usize, user: u32, sessions: &[ScriptSession]) -> usize
    ensures { result ≡ room - phase_writes user sessions.now }
{
    let mut left = room;
    for session in sessions {
        left = left_in_session(left, user, session);
    }
    left
}

fn left_in_phases(room: usize, user: u32, phases: &[Phase]) -> usize
    ensures { result ≡ room - sum_by (phase_writes user) phases.now }
{
    let mut left = room;
    for phase in phases {
        left = left_in_phase(left, user, phase.as_slice());
    }
    left
}

/// Whether the user has more writes than its key can sign.
#[tactic(auto, unfolding(crate::specs::Writes::overspends))]
fn overspends(script: &Script, user: &ScriptUser) -> bool
    ensures { result ≡ overspends script.now user.now }
{
    // One more than the key can sign: nothing of it is left exactly where too many are written.
    let room = signatures(user.lms) + 1;
    left_in_phases(room, user.user, script.phases.as_slice()) == 0
}

fn lower(least: Option<u32>, number: u32) -> Option<u32>
    ensures { result ≡ lower least number }
{
    match least {
        None => Some(number),
        Some(least) => Some(least.min(number)),
    }
}

/// The least user who has too many writes.
#[tactic(auto, unfolding(crate::specs::Writes::overspender))]
fn overspender(script: &Script) -> Option<u32>
    ensures { result ≡ overspender script.now }
{
    script.users.as_slice().iter().fold(None, |least, user| {
        if overspends(script, user) {
            lower(least, user.user)
        } else {
            least
        }
    })
}

/// Refuses the least user who has too many writes.
#[tactic(auto, unfolding(crate::specs::Writes::signs_enough))]
pub(crate) fn signs_enough(script: &Script) -> Result<(), ScriptRefusal>
    ensures { Gives (λ u. u) result (signs_enough script.now) }
{
    match overspender(script) {
        None => Ok(()),
        Some(user) => Err(ScriptRefusal::TooManyWrites { user }),
    }
}
