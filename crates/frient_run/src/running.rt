//! The run of the script that was chosen, under the digest that it names.
ghost use Rattle.std.specs.Prelude.{◌≡◌, length, map, IfOk};
ghost use Rattle.script_read.specs.Limits.{IsScript};
ghost use Rattle.frient_run.specs.Ends.{Came, Tells, text_by};
ghost use Rattle.script_read.specs.declared.script.DigestName.TheVariants as names;

use crate::ended::Halls;
use crate::fate::Told;
use fr_bytes::{Bytes, NoMemory};
use fr_digest::{Sha, Short};
use fr_edges::Wire;
use frient_script::{Chosen, Form};
use run_script::{Ran, run_script};
use script_form::{Outcomes, report, status_of, summary};
use script_read::{DigestName, Script};
use std::alloc::Global;
use std::sync::Wait;
use std::thread::Threads;
use world_book::World;

/// What a run came to, before it is told, and its wires.
#[derive(Drop)]
struct Run<W> {
    world: World,
    halls: Halls,
    outcomes: Outcomes,
    wires: Vec<W>,
}

fn run_sha<R: Threads + Wait + Sync, W: Wire + Send>(
    rt: &R,
    alloc: Global,
    script: &Script,
    wires: Vec<W>,
) -> Result<Run<W>, NoMemory>
    requires script { IsScript script.now }
    requires digest { script.now.digest ≡ names.Sha }
    requires sixteen { length wires.items ≡ 16 }
    ensures { IfOk result (Came script.now W.view wires.items) }
{
    let Ran {
        outcomes,
        world,
        halls,
        wires,
    } = run_script::<Sha, W, R>(rt, alloc, script, wires)?;
    Ok(Run {
        world,
        halls: Halls::Sha(halls),
        outcomes,
        wires,
    })
}

fn run_short<R: Threads + Wait + Sync, W: Wire + Send>(
    rt: &R,
    alloc: Global,
    script: &Script,
    wires: Vec<W>,
) -> Result<Run<W>, NoMemory>
    requires script { IsScript script.now }
    requires digest { script.now.digest ≡ names.Short }
    requires sixteen { length wires.items ≡ 16 }
    ensures { IfOk result (Came script.now W.view wires.items) }
{
    let Ran {
        outcomes,
        world,
        halls,
        wires,
    } = run_script::<Short, W, R>(rt, alloc, script, wires)?;
    Ok(Run {
        world,
        halls: Halls::Short(halls),
        outcomes,
        wires,
    })
}

fn run_by_digest<R: Threads + Wait + Sync, W: Wire + Send>(
    rt: &R,
    alloc: Global,
    script: &Script,
    wires: Vec<W>,
) -> Result<Run<W>, NoMemory>
    requires script { IsScript script.now }
    requires sixteen { length wires.items ≡ 16 }
    ensures { IfOk result (Came script.now W.view wires.items) }
{
    match script.digest {
        DigestName::Sha => run_sha(rt, alloc, script, wires),
        DigestName::Short => run_short(rt, alloc, script, wires),
    }
}

// What tells a run in a form.
fn text_of(
    alloc: Global,
    form: Form,
    script: &Script,
    outcomes: &Outcomes,
) -> Result<Bytes, NoMemory>
    ensures { IfOk result (λ text. text ≡ text_by form script.now outcomes.now) }
{
    match form {
        Form::Report => report(alloc, script, outcomes),
        Form::Summary => summary(alloc, script, outcomes),
    }
}

/// Runs the script that was chosen over these wires, and gives what it came to, told in its form, with the wires.
///
/// # Errors
/// `NoMemory`.
pub(crate) fn tell<R: Threads + Wait + Sync, W: Wire + Send>(
    rt: &R,
    alloc: Global,
    chosen: &Chosen,
    wires: Vec<W>,
) -> Result<(Told, Vec<W>), NoMemory>
    requires script { IsScript chosen.now.script }
    requires sixteen { length wires.items ≡ 16 }
    ensures { IfOk result (λ out. Tells chosen.now W.view wires.items out.0 out.1.items) }
{
    let Run {
        world,
        halls,
        outcomes,
        wires,
    } = run_by_digest(rt, alloc, &chosen.script, wires)?;
    let told = Told {
        text: text_of(alloc, chosen.form, &chosen.script, &outcomes)?,
        status: status_of(&outcomes),
        world,
        halls,
        outcomes,
    };
    Ok((told, wires))
}
