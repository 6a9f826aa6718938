ghost use Rattle.std.specs.Prelude.{◌≡◌, ◌++◌, OnOk, IfOk};
ghost use Rattle.std.specs.List.{flat_map};
ghost use Rattle.std.specs.String.{string_bytes};
ghost use Rattle.script_form.specs.Report.{command_line, outcome_text, report_of};

use crate::asked::{put_place, put_what};
use crate::counts::status_of;
use crate::ends::{put_end, put_keys};
use crate::last_lines::{put_audit, put_status, put_walls};
use crate::outcome::{Outcome, Outcomes};
use crate::put::put;
use crate::shown::put_shown;
use fr_bytes::{Bytes, NoMemory};
use script_read::Script;
use std::alloc::Global;

#[tactic(auto, unfolding(crate::specs::Report::command_line))]
fn put_command(out: &mut String, script: &Script, outcome: &Outcome) -> Result<(), NoMemory>
    ensures { OnOk result (string_bytes out.new ≡ string_bytes out.old ++ command_line script.now outcome.now) }
{
    put_place(out, outcome)?;
    put_what(out, script, outcome)?;
    put(out, ": ")?;
    put_end(out, outcome.end)?;
    put(out, "\n")?;
    Ok(())
}

#[tactic(auto, unfolding(crate::specs::Report::outcome_text))]
fn put_outcome(
    alloc: Global,
    out: &mut String,
    script: &Script,
    outcome: &Outcome,
) -> Result<(), NoMemory>
    ensures { OnOk result (string_bytes out.new ≡ string_bytes out.old ++ outcome_text script.now outcome.now) }
{
    put_command(out, script, outcome)?;
    put_shown(alloc, out, outcome.shown.as_slice())?;
    put_keys(out, outcome.keys)?;
    Ok(())
}

fn put_outcomes(
    alloc: Global,
    out: &mut String,
    script: &Script,
    outcomes: &[Outcome],
) -> Result<(), NoMemory>
    ensures { OnOk result
        (string_bytes out.new ≡ string_bytes out.old ++ flat_map (outcome_text script.now) outcomes.now) }
{
    for outcome in outcomes {
        put_outcome(alloc, out, script, outcome)?;
    }
    Ok(())
}

#[tactic(auto, unfolding(crate::specs::Report::report_of))]
fn put_report(
    alloc: Global,
    out: &mut String,
    script: &Script,
    run: &Outcomes,
) -> Result<(), NoMemory>
    ensures { OnOk result (string_bytes out.new ≡ string_bytes out.old ++ report_of script.now run.now) }
{
    put_outcomes(alloc, out, script, run.commands.as_slice())?;
    put_walls(alloc, out, run.walls.as_slice())?;
    put_audit(alloc, out, &run.audit)?;
    put_status(out, status_of(run))?;
    Ok(())
}

/// The report of a run, as it is written: for each command a line, a line for each position that it shows
/// and a line where its exchange for keys failed; then a line for each wall, what the audit found, and the
/// status. Each line ends with one newline. Numbers are decimal, digests and bytes lower-case hexadecimal;
/// a post is shown as it is where each of its bytes is from `20` to `7e`.
///
/// The user, the wall and the verb of a command are the script's at the outcome's place. `NoMemory` comes
/// where an allocation is refused. The time is linear in the text.
pub fn report(alloc: Global, script: &Script, run: &Outcomes) -> Result<Bytes, NoMemory>
    ensures { IfOk result (λ text. text ≡ report_of script.now run.now) }
{
    let mut out = String::new(alloc);
    put_report(alloc, &mut out, script, run)?;
    Ok(Bytes::of(out.into_bytes()))
}
