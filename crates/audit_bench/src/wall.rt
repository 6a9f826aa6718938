//! A wall of its owner, who writes it, and of a reader.
ghost use Rattle.std.specs.Prelude.{◌≡◌, ◌≤◌, [], ◌∷◌, map, ℕ, true, Some, IfOk, is_some, nat_eq};
ghost use Rattle.lms_tree.specs.Signer.{public_of};
ghost use Rattle.lms_tree.specs.Valid.{Key};
ghost use Rattle.signed_ops.specs.Signed.{key_of};
ghost use Rattle.client_core.specs.Clients.{IsStart};
ghost use Rattle.audit_worlds.specs.Clients.{Knows};

use anyhow::{Context, Result};
use check_rules::Known;
use client_core::{Client, Owned, SideStart};
use fr_bytes::Sequence;
use fr_digest::Digester;
use hall_core::Hall;
use lms_params::pair_of;
use lms_tree::{PublicKey, Signer, UserKeys};
use signed_ops::key_of;
use std::alloc::Global;
use world_book::WallNote;

/// The wall.
pub const WALL: u32 = 1;

/// The user who owns it and makes each of its posts.
pub const WRITER: u32 = 1;

/// A user who only reads it.
pub const READER: u32 = 2;

/// What everybody knows of the wall.
#[derive(Drop)]
pub struct Everybody {
    pub note: WallNote,
    pub keys: UserKeys,
}

/// A signer with 2^5 signatures (5) or 2^10 (6), of secrets that are made of a byte.
pub fn signer(alloc: Global, lms: u32, seed: u8) -> Result<Signer> {
    let pair = pair_of(lms, 3).context("no pair of the tables")?;
    Signer::make(alloc, &[seed; 32], &[seed; 16], pair)
        .ok()
        .context("no signer was made")
}

fn server_signer(alloc: Global) -> Result<Signer>
    ensures tall { IfOk result (λ signer. signer.pair.lms.h ≡ 10) }
    ensures fresh { IfOk result (λ signer. signer.used ≡ 0) }
{
    let signer = signer(alloc, 6, 9)?;
    if signer.left() != 1_024 {
        return Err(anyhow::Error::msg("another height"));
    }
    Ok(signer)
}

/// The server's wall without leaves, and what everybody knows of it.
pub fn empty<D: Digester>(
    alloc: Global,
    writer: PublicKey,
    reader: PublicKey,
) -> Result<(Hall<D>, Everybody)>
    ensures fresh { IfOk result (λ r. r.0.entries ≡ []) }
    ensures few { IfOk result (λ r. r.1.note.f ≤ 31) }
    ensures keys { IfOk result (λ r. map (λ (p : ℕ × Key). p.0) r.1.keys ≡ 1 ∷ 2 ∷ []) }
{
    let server = server_signer(alloc)?;
    let note = WallNote {
        wall: WALL,
        owner: WRITER,
        f: 0,
        server: server.public(),
    };
    let keys = Vec::from_array(alloc, [(WRITER, writer), (READER, reader)])?;
    let keys = Sequence::of(keys);
    let hall = Hall::make(alloc, WALL, WRITER, 0, server, keys.copy()?)?;
    Ok((hall, Everybody { note, keys }))
}

/// What a user who has accepted nothing knows of the wall.
fn known(everybody: &Everybody) -> Result<Known>
    ensures note { IfOk result (λ known. (record {
      wall = known.wall;
      owner = known.owner;
      f = known.f;
      server = known.server;
    }) ≡ everybody.now.note) }
    ensures users { IfOk result (λ known. known.users ≡ everybody.now.keys) }
    ensures nothing { IfOk result (λ known. (known.size ≡ 0) × (known.epoch ≡ 0)) }
{
    let note = everybody.note;
    Ok(Known {
        wall: note.wall,
        owner: note.owner,
        f: note.f,
        server: note.server,
        users: everybody.keys.copy()?,
        size: 0,
        root: [0; 32],
        epoch: 0,
    })
}

/// What a user has more than others, where it is the owner.
fn owned(alloc: Global, user: u32, owner: u32) -> Option<Owned>
    ensures { is_some result ≡ nat_eq user owner }
{
    if user != owner {
        return None;
    }
    Some(Owned {
        master: [7; 32],
        secrets: Sequence::of(Vec::new(alloc)),
    })
}

/// What a user's client begins with.
fn start(alloc: Global, everybody: &Everybody, user: u32) -> Result<SideStart>
    requires { everybody.now.note.f ≤ 31 }
    ensures starts { IfOk result (IsStart user) }
    ensures note { IfOk result (λ s. (record {
      wall = s.known.wall;
      owner = s.known.owner;
      f = s.known.f;
      server = s.known.server;
    }) ≡ everybody.now.note) }
    ensures users { IfOk result (λ s. s.known.users ≡ everybody.now.keys) }
{
    let known = known(everybody)?;
    let owned = owned(alloc, user, known.owner);
    Ok(SideStart {
        known,
        depth: 1,
        secret: [0; 32],
        owned,
    })
}

/// Whether this key is listed for a user.
fn is_listed(keys: &UserKeys, user: u32, key: &PublicKey) -> bool
    ensures { result ≡ true → key_of keys.now user ≡ Some key.now }
{
    match key_of(keys, user) {
        Some(listed) => listed.write() == key.write(),
        None => false,
    }
}

// A user's client, where its signer is that of the keys.
fn client_of<D: Digester>(
    alloc: Global,
    user: u32,
    signer: Signer,
    start: SideStart,
) -> Result<Client<D>>
    requires { IsStart user start }
    ensures knows { IfOk result (Knows (record {
      wall = start.known.wall;
      owner = start.known.owner;
      f = start.known.f;
      server = start.known.server;
    }) start.known.users) }
    ensures user { IfOk result (λ c. c.book.user ≡ user) }
{
    if !is_listed(&start.known.users, user, &signer.public()) {
        return Err(anyhow::Error::msg("another key"));
    }
    let sides = Vec::from_array(alloc, [start])?;
    Ok(Client::make(alloc, user, false, signer, sides)?)
}

/// A user's client, which has accepted nothing.
pub fn client<D: Digester>(
    alloc: Global,
    everybody: &Everybody,
    user: u32,
    signer: Signer,
) -> Result<Client<D>>
    requires { everybody.now.note.f ≤ 31 }
    ensures knows { IfOk result (Knows everybody.now.note everybody.now.keys) }
    ensures user { IfOk result (λ c. c.book.user ≡ user) }
{
    let start = start(alloc, everybody, user)?;
    client_of(alloc, user, signer, start)
}
