ghost use Rattle.std.specs.Prelude.{IfOk};
ghost use Rattle.script_read.specs.Limits.{IsScript};
ghost use Rattle.run_start.specs.Begins.{Begins};
ghost use Rattle.run_start.specs.Parties.{AreParties, HasShared};

use crate::begun::Start;
use crate::clients::clients;
use crate::halls::halls;
use crate::keys::{Parties, user_parties, wall_parties};
use crate::numbers::{user_numbers, wall_numbers};
use crate::shared::{Shared, notes, public_keys, secrets};
use fr_bytes::NoMemory;
use fr_digest::Digester;
use hall_server::Server;
use script_read::Script;
use std::alloc::Global;

// All users and all walls. This makes their keys.
fn all_parties(alloc: Global, script: &Script) -> Result<Parties, NoMemory>
    requires { IsScript script.now }
    ensures { IfOk result (AreParties script.now) }
{
    let numbers = user_numbers(alloc, script)?;
    let walls = wall_numbers(alloc, script)?;
    let users = user_parties(alloc, script, &numbers)?;
    let walls = wall_parties(alloc, script, &walls)?;
    Ok(Parties {
        numbers,
        users,
        walls,
    })
}

// What all clients are made of.
fn shared(alloc: Global, script: &Script, parties: &Parties) -> Result<Shared, NoMemory>
    requires { AreParties script.now parties.now }
    ensures { IfOk result (HasShared script.now parties.now) }
{
    let keys = public_keys(alloc, &parties.users)?;
    let secrets = secrets(alloc, script, &parties.numbers)?;
    let notes = notes(alloc, script, &parties.walls)?;
    Ok(Shared {
        keys,
        secrets,
        notes,
    })
}

// The server and the clients.
fn begin<D: Digester>(
    alloc: Global,
    script: &Script,
    parties: Parties,
    shared: Shared,
) -> Result<Start<D>, NoMemory>
    requires script { IsScript script.now }
    requires parties { AreParties script.now parties }
    requires shared { HasShared script.now parties shared }
    ensures { IfOk result (Begins D.digest_of script.now) }
{
    let clients = clients(alloc, script, &shared, parties.users)?;
    let halls = halls(alloc, script, &shared.keys, parties.walls)?;
    let (server, seats) = Server::make(halls, &parties.numbers)?;
    Ok(Start {
        server,
        seats,
        clients,
        notes: shared.notes,
    })
}

/// What a run of this script begins with: a server of all its walls, which has no leaves yet, and of each user the seats
/// and the client, which has accepted and signed nothing. The users and the walls come in rising order of their numbers,
/// whatever the script's order. Each secret key is made once, which takes most of the time: a user's has 32 or 1,024
/// leaves, and a wall's 1,024.
///
/// # Errors
/// `NoMemory`.
pub fn start<D: Digester>(alloc: Global, script: &Script) -> Result<Start<D>, NoMemory>
    requires { IsScript script.now }
    ensures { IfOk result (Begins D.digest_of script.now) }
{
    let parties = all_parties(alloc, script)?;
    let shared = shared(alloc, script, &parties)?;
    begin(alloc, script, parties, shared)
}
