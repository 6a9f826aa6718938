ghost use Rattle.std.specs.Prelude.{◌≡◌, ◌++◌, OnOk, IfOk};
ghost use Rattle.std.specs.String.{string_bytes};
ghost use Rattle.script_form.specs.Report.{labelled};
ghost use Rattle.script_form.specs.Summary.{AddUp, same_count, counts_as, how_many, counts_line, summary_of};

use crate::counts::{Count, status_of};
use crate::last_lines::{put_sizes, put_sound, put_status};
use crate::outcome::{Outcome, Outcomes};
use crate::put::{put, put_number};
use fr_bytes::{Bytes, NoMemory};
use script_read::Script;
use std::alloc::Global;

fn same_count(a: Count, b: Count) -> bool
    ensures { result ≡ same_count a b }
{
    match (a, b) {
        (Count::Taken, Count::Taken)
        | (Count::Declined, Count::Declined)
        | (Count::Refused, Count::Refused)
        | (Count::Rejected, Count::Rejected)
        | (Count::Lost, Count::Lost) => true,
        _ => false,
    }
}

fn counts_as(what: Count, outcome: &Outcome) -> bool
    ensures { result ≡ counts_as what outcome.now }
{
    same_count(what, Count::of(outcome))
}

/// How many of the commands count so.
fn how_many(what: Count, commands: &[Outcome]) -> usize
    ensures { result ≡ how_many what commands.now }
{
    commands
        .iter()
        .filter(|outcome| counts_as(what, outcome))
        .count()
}

fn put_count(
    out: &mut String,
    label: &str,
    what: Count,
    commands: &[Outcome],
) -> Result<(), NoMemory>
    ensures { OnOk result
        (string_bytes out.new ≡ string_bytes out.old ++ labelled label.now (how_many what commands.now)) }
{
    put_number(out, label, how_many(what, commands) as u64)
}

#[tactic(auto, unfolding(crate::specs::Summary::counts_line))]
fn put_counts(out: &mut String, commands: &[Outcome]) -> Result<(), NoMemory>
    ensures { OnOk result (string_bytes out.new ≡ string_bytes out.old ++ counts_line commands.now) }
{
    put_number(out, "summary commands ", commands.len() as u64)?;
    put_count(out, " taken ", Count::Taken, commands)?;
    put_count(out, " declined ", Count::Declined, commands)?;
    put_count(out, " refused ", Count::Refused, commands)?;
    put_count(out, " rejected ", Count::Rejected, commands)?;
    put_count(out, " lost ", Count::Lost, commands)?;
    put(out, "\n")?;
    Ok(())
}

#[tactic(auto, unfolding(crate::specs::Summary::summary_of))]
fn put_summary(alloc: Global, out: &mut String, run: &Outcomes) -> Result<(), NoMemory>
    ensures { OnOk result (string_bytes out.new ≡ string_bytes out.old ++ summary_of run.now) }
{
    put_counts(out, run.commands.as_slice())?;
    put_sizes(out, run.walls.as_slice())?;
    put_sound(alloc, out, &run.audit)?;
    put_status(out, status_of(run))?;
    Ok(())
}

/// The summary of a run, as it is written: how many commands there were, and how many of them were taken,
/// declined, refused, rejected and lost, which add up to all; a line for each wall, with its size; `sound`
/// or what the audit found; and the status. A command counts as rejected or lost also where only its
/// exchange for keys was. `NoMemory` comes where an allocation is refused.
pub fn summary(alloc: Global, _script: &Script, run: &Outcomes) -> Result<Bytes, NoMemory>
    ensures text { IfOk result (λ text. text ≡ summary_of run.now) }
    // Each command counts once.
    ensures counts { AddUp run.now.commands }
{
    let mut out = String::new(alloc);
    put_summary(alloc, &mut out, run)?;
    Ok(Bytes::of(out.into_bytes()))
}
