//! The users' clients.
ghost use Rattle.std.specs.Prelude.{◌≡◌, map, IfOk};
ghost use Rattle.std.specs.List.{All, AllByRecursion};
ghost use Rattle.script_read.specs.Limits.{IsListedWall, IsScript};
ghost use Rattle.world_book.specs.Kept.{known_by};
ghost use Rattle.client_core.specs.Clients.{client_view};
ghost use Rattle.run_start.specs.Clients.{owned_of, start_on, starts_of};
ghost use Rattle.run_start.specs.Parties.{HasListedWall, IsShared, IsUserParty, client_of};

use crate::keys::Party;
use crate::numbers::{user_at, wall_at};
use crate::shared::Shared;
use check_rules::Known;
use client_core::{Client, Owned, SideStart};
use fr_bytes::NoMemory;
use fr_digest::Digester;
use script_read::{Script, ScriptUser, ScriptWall};
use std::alloc::Global;
use world_book::WallNote;

// What is known of a wall of which nothing has been accepted.
#[tactic(auto, unfolding(op_types::specs::Spelling::no_root))]
fn known(shared: &Shared, note: &WallNote) -> Result<Known, NoMemory>
    ensures { IfOk result (λ known. known ≡ known_by note.now shared.now.keys None) }
{
    Ok(Known {
        wall: note.wall,
        owner: note.owner,
        f: note.f,
        server: note.server,
        users: shared.keys.copy()?,
        size: 0,
        root: [0; 32],
        epoch: 0,
    })
}

// What the owner of a wall has.
fn owned(shared: &Shared, wall: &ScriptWall) -> Result<Owned, NoMemory>
    ensures { IfOk result (λ owned. owned ≡ owned_of wall.now shared.now) }
{
    Ok(Owned {
        master: wall.master,
        secrets: shared.secrets.copy()?,
    })
}

// What a user begins with on a wall.
fn side_start(
    script: &Script,
    shared: &Shared,
    user: &ScriptUser,
    note: &WallNote,
) -> Result<SideStart, NoMemory>
    requires { IsListedWall script.now note.now.wall }
    ensures { IfOk result (λ start. start ≡ start_on script.now shared.now user.now note.now) }
{
    let wall = wall_at(script, note.wall);
    let owned = if user.user == note.owner {
        Some(owned(shared, wall)?)
    } else {
        None
    };
    Ok(SideStart {
        known: known(shared, note)?,
        depth: wall.depth,
        secret: user.secret,
        owned,
    })
}

// What a user begins with on each of the walls.
fn starts(
    alloc: Global,
    script: &Script,
    shared: &Shared,
    user: &ScriptUser,
) -> Result<Vec<SideStart>, NoMemory>
    requires { All (HasListedWall script.now) shared.now.notes }
    ensures { IfOk result (λ starts. starts.items ≡ starts_of script.now shared.now user.now) }
{
    let notes = shared.notes.as_slice();
    let mut starts = Vec::new(alloc);
    for note in notes {
        starts.push(side_start(script, shared, user, note)?)?;
    }
    Ok(starts)
}

// The client of a user.
fn client<D: Digester>(
    alloc: Global,
    script: &Script,
    shared: &Shared,
    party: Party,
) -> Result<Client<D>, NoMemory>
    requires script { IsScript script.now }
    requires shared { IsShared script.now shared.now }
    requires party { IsUserParty script.now party }
    ensures { IfOk result (λ client. client_view client ≡ client_of script.now shared.now party) }
{
    let user = user_at(script, party.number);
    let starts = starts(alloc, script, shared, user)?;
    Client::make(alloc, party.number, user.rogue, party.signer, starts)
}

/// The clients of these users, in order.
pub(crate) fn clients<D: Digester>(
    alloc: Global,
    script: &Script,
    shared: &Shared,
    parties: Vec<Party>,
) -> Result<Vec<Client<D>>, NoMemory>
    requires script { IsScript script.now }
    requires shared { IsShared script.now shared.now }
    requires parties { AllByRecursion (IsUserParty script.now) parties.items }
    ensures { IfOk result (λ clients. map client_view clients.items
        ≡ map (client_of script.now shared.now) parties.items) }
{
    let mut clients = Vec::new(alloc);
    for party in parties {
        clients.push(client(alloc, script, shared, party)?)?;
    }
    Ok(clients)
}
