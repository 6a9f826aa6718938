//! What all users' clients are made of: the users' public keys and secrets, and the walls' notes.
ghost use Rattle.std.specs.Prelude.{◌≡◌, map, IfOk};
ghost use Rattle.std.specs.List.{All};
ghost use Rattle.script_read.specs.Limits.{IsListedUser};
ghost use Rattle.run_start.specs.Clients.{secrets_in};
ghost use Rattle.run_start.specs.Parties.{IsWallParty, listed_key, note_of};

use crate::keys::Party;
use crate::numbers::{user_at, wall_at};
use client_core::UserSecrets;
use fr_bytes::{NoMemory, Sequence};
use lms_tree::UserKeys;
use script_read::Script;
use std::alloc::Global;
use world_book::{Log, WallNote, WallNotes};

/// What all users' clients are made of.
#[derive(Drop)]
pub struct Shared {
    /// The users' public keys.
    pub keys: UserKeys,
    /// The users' secrets, which the owner of a wall knows.
    pub secrets: UserSecrets,
    /// What everybody knows of the walls.
    pub notes: WallNotes,
}

/// The public keys of these users, in order.
pub(crate) fn public_keys(alloc: Global, parties: &[Party]) -> Result<UserKeys, NoMemory>
    ensures { IfOk result (λ keys. keys ≡ map listed_key parties.now) }
{
    let mut keys = Vec::new(alloc);
    for party in parties {
        keys.push((party.number, party.signer.public()))?;
    }
    Ok(Sequence::of(keys))
}

/// The secrets of these users, in order.
pub(crate) fn secrets(
    alloc: Global,
    script: &Script,
    users: &[u32],
) -> Result<UserSecrets, NoMemory>
    requires { All (IsListedUser script.now) users.now }
    ensures { IfOk result (λ secrets. secrets ≡ secrets_in script.now users.now) }
{
    let mut secrets = Vec::new(alloc);
    for number in users {
        secrets.push((*number, user_at(script, *number).secret))?;
    }
    Ok(Sequence::of(secrets))
}

// What everybody knows of a wall.
fn note(script: &Script, party: &Party) -> WallNote
    requires { IsWallParty script.now party.now }
    ensures { result ≡ note_of script.now party.now }
{
    let wall = wall_at(script, party.number);
    WallNote {
        wall: party.number,
        owner: wall.owner,
        f: wall.f,
        server: party.signer.public(),
    }
}

/// The notes of these walls, in order.
pub(crate) fn notes(
    alloc: Global,
    script: &Script,
    parties: &[Party],
) -> Result<WallNotes, NoMemory>
    requires { All (IsWallParty script.now) parties.now }
    ensures { IfOk result (λ notes. notes ≡ map (note_of script.now) parties.now) }
{
    let mut notes = Log::empty(alloc);
    for party in parties {
        notes.push(note(script, party))?;
    }
    Ok(notes)
}
