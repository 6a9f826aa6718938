ghost use Rattle.std.specs.Prelude.{◌≡◌};
ghost use Rattle.std.specs.List.{list_any};
ghost use Rattle.script_form.specs.Status.{count_of_end, count_by_keys, count_of, is_failure, fails, status_by, status_of};

use crate::outcome::{AuditLine, CommandEnd, KeysEnd, Outcome, Outcomes};

/// What a command counts as in a summary.
#[derive(Clone, Copy, Debug, PartialEq, Eq)]
pub enum Count {
    /// Its reply was taken, with something new or with nothing.
    Taken,
    /// Its client asked nothing.
    Declined,
    /// The server refused it.
    Refused,
    /// Its client rejected what was delivered, for the command or for its keys.
    Rejected,
    /// Nothing was delivered, for the command or for its keys.
    Lost,
}

impl Count {
    fn of_end(end: CommandEnd) -> Count
        ensures { result ≡ count_of_end end }
    {
        match end {
            CommandEnd::Accepted { .. } | CommandEnd::Same { .. } => Count::Taken,
            CommandEnd::Refused { .. } => Count::Refused,
            CommandEnd::Rejected(_) => Count::Rejected,
            CommandEnd::Lost => Count::Lost,
            CommandEnd::Declined(_) => Count::Declined,
        }
    }

    /// What the command counts as. Takes no memory.
    pub fn of(outcome: &Outcome) -> Count
        ensures { result ≡ count_of outcome.now }
    {
        match outcome.keys {
            KeysEnd::Fine => Count::of_end(outcome.end),
            KeysEnd::Rejected(_) => Count::Rejected,
            KeysEnd::Lost => Count::Lost,
        }
    }

    fn is_failure(self) -> bool
        ensures { result ≡ is_failure self }
    {
        match self {
            Count::Taken | Count::Declined | Count::Refused => false,
            Count::Rejected | Count::Lost => true,
        }
    }
}

/// Whether the command was rejected or lost.
fn fails(outcome: &Outcome) -> bool
    ensures { result ≡ fails outcome.now }
{
    Count::of(outcome).is_failure()
}

fn any_fails(commands: &[Outcome]) -> bool
    ensures { result ≡ list_any fails commands.now }
{
    commands.iter().any(|outcome| fails(outcome))
}

/// The status of a run: 4 where the audit found a collision and 5 where it found a forgery, else 1 where a
/// command was rejected or lost, and else 0. Takes no memory.
#[tactic(auto, unfolding(crate::specs::Status::status_of))]
pub fn status_of(run: &Outcomes) -> u8
    ensures { result ≡ status_of run.now }
{
    match run.audit {
        AuditLine::Sound { .. } => {
            if any_fails(run.commands.as_slice()) {
                1
            } else {
                0
            }
        }
        AuditLine::Collision { .. } => 4,
        AuditLine::Forged { .. } => 5,
    }
}
