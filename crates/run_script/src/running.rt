//! A run from its beginning to its end.
ghost use Rattle.script_read.specs.Limits.{IsScript};
ghost use Rattle.run_script.specs.Runs.{RunOf};
ghost use Rattle.std.specs.Prelude.{◌≡◌, length, IfOk};

use crate::closing::{Ran, close};
use crate::ordering::users_of;
use fr_bytes::NoMemory;
use fr_digest::Digester;
use fr_edges::Wire;
use run_phases::{Running, play};
use run_start::{Start, start};
use script_read::Script;
use std::alloc::Global;
use std::sync::Wait;
use std::thread::Threads;

/// Runs a script: its users' clients against the server of its walls, over these wires, the i-th of which is that of the
/// i-th session of each phase. Tampering is no part of it: the script's tamper lines aren't read.
///
/// The script is within its limits, and there are 16 wires.
///
/// It starts threads, and may wait for turns; it says nothing of how long.
///
/// # Errors
/// `NoMemory`.
pub fn run_script<D: Digester + Send + Sync, W: Wire + Send, R: Threads + Wait + Sync>(
    rt: &R,
    alloc: Global,
    script: &Script,
    wires: Vec<W>,
) -> Result<Ran<D, W>, NoMemory>
    requires script { IsScript script.now }
    requires sixteen { length wires.items ≡ 16 }
    ensures { IfOk result (RunOf D.digest_of W.view script.now wires.items) }
{
    let Start {
        server,
        seats,
        clients,
        notes,
    } = start::<D>(alloc, script)?;
    let users = users_of(alloc, &seats)?;
    let mut run = Running {
        clients,
        seats,
        wires,
        outcomes: Vec::new(alloc),
    };
    play(rt, alloc, &server, &mut run, &script.phases)?;
    close(alloc, server, run, &users, notes)
}
