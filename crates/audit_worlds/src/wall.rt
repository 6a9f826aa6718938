//! A wall of user 1 that four users know.
ghost use Rattle.std.specs.Prelude.{◌≡◌, [], ◌∷◌, map, ℕ, true, Some, IfOk, is_some, nat_eq};
ghost use Rattle.lms_params.specs.Parameters.{IsListed};
ghost use Rattle.lms_tree.specs.Signer.{public_of};
ghost use Rattle.lms_tree.specs.Valid.{Key};
ghost use Rattle.signed_ops.specs.Signed.{key_of};
ghost use Rattle.client_core.specs.Clients.{IsStart};
ghost use Rattle.audit_worlds.specs.Clients.{Knows};

use check_rules::Known;
use client_core::{Client, Owned, SideStart, UserSecrets};
use fr_bytes::Sequence;
use fr_digest::Digester;
use hall_core::Hall;
use lms_params::{Pair, pair_of};
use lms_tree::{PublicKey, Signer, UserKeys};
use signed_ops::key_of;
use std::alloc::Global;
use std::test::Fail;
use world_book::WallNote;

/// The wall.
pub const WALL: u32 = 1;

/// The user who owns it.
const OWNER: u8 = 1;

/// The users. The secrets of each are made of its number.
pub const USERS: [u8; 4] = [1, 2, 3, 4];

/// How many levels the wall's key tree has.
const DEPTH: u8 = 2;

/// What everybody knows of the wall.
#[derive(Drop)]
pub struct Everybody {
    pub note: WallNote,
    pub keys: UserKeys,
}

fn pair_by(lms: u32) -> Result<Pair, Fail>
    ensures { IfOk result IsListed }
{
    match pair_of(lms, 2) {
        Some(pair) => Ok(pair),
        None => Err("no pair of the tables".into()),
    }
}

/// A user's signer, with 2^5 signatures. Each call gives the same.
fn user_signer(alloc: Global, user: u8) -> Result<Signer, Fail> {
    Ok(Signer::make(alloc, &[user; 32], &[user; 16], pair_by(5)?)?)
}

/// The signer of each of the wall's servers.
fn server_signer(alloc: Global) -> Result<Signer, Fail>
    ensures tall { IfOk result (λ signer. signer.pair.lms.h ≡ 10) }
    ensures fresh { IfOk result (λ signer. signer.used ≡ 0) }
{
    let pair = pair_by(6)?;
    if pair.lms.h != 10 {
        return Err("another height".into());
    }
    Ok(Signer::make(alloc, &[9; 32], &[0x49; 16], pair)?)
}

fn keys_of(alloc: Global, users: &[u8]) -> Result<UserKeys, Fail>
    ensures { IfOk result (λ keys. map (λ (p : ℕ × Key). p.0) keys ≡ users.now) }
{
    let mut keys = Vec::new(alloc);
    for user in users {
        let signer = user_signer(alloc, *user)?;
        keys.push((u32::from(*user), signer.public()))?;
    }
    Ok(Sequence::of(keys))
}

fn secrets(alloc: Global) -> Result<UserSecrets, Fail> {
    let mut secrets = Vec::new(alloc);
    for user in USERS {
        secrets.push((u32::from(user), [user; 32]))?;
    }
    Ok(Sequence::of(secrets))
}

/// A server's wall without leaves, and what everybody knows of it. At most f of the users may be in league with the
/// server.
pub fn empty<D: Digester>(alloc: Global, f: u32) -> Result<(Hall<D>, Everybody), Fail>
    ensures fresh { IfOk result (λ r. r.0.entries ≡ []) }
    ensures keys { IfOk result (λ r. map (λ (p : ℕ × Key). p.0) r.1.keys ≡ 1 ∷ 2 ∷ 3 ∷ 4 ∷ []) }
{
    let server = server_signer(alloc)?;
    let owner = u32::from(OWNER);
    let note = WallNote {
        wall: WALL,
        owner,
        f,
        server: server.public(),
    };
    let keys = keys_of(alloc, USERS.as_slice())?;
    let hall = Hall::make(alloc, WALL, owner, f, server, keys.copy()?)?;
    Ok((hall, Everybody { note, keys }))
}

/// What a user who has accepted nothing knows of the wall.
fn known(everybody: &Everybody) -> Result<Known, Fail>
    ensures note { IfOk result (λ known. (record {
      wall = known.wall;
      owner = known.owner;
      f = known.f;
      server = known.server;
    }) ≡ everybody.now.note) }
    ensures users { IfOk result (λ known. known.users ≡ everybody.now.keys) }
    ensures nothing { IfOk result (λ known. (known.size ≡ 0) × (known.epoch ≡ 0)) }
{
    let note = everybody.note;
    Ok(Known {
        wall: note.wall,
        owner: note.owner,
        f: note.f,
        server: note.server,
        users: everybody.keys.copy()?,
        size: 0,
        root: [0; 32],
        epoch: 0,
    })
}

/// What a user has more than others, where it is the owner.
fn owned(alloc: Global, user: u8, owner: u32) -> Result<Option<Owned>, Fail>
    ensures { IfOk result (λ owned. is_some owned ≡ nat_eq user owner) }
{
    if u32::from(user) != owner {
        return Ok(None);
    }
    Ok(Some(Owned {
        master: [7; 32],
        secrets: secrets(alloc)?,
    }))
}

// What a user's client begins with.
fn start(alloc: Global, everybody: &Everybody, user: u8) -> Result<SideStart, Fail>
    ensures starts { IfOk result (IsStart user) }
    ensures note { IfOk result (λ s. (record {
      wall = s.known.wall;
      owner = s.known.owner;
      f = s.known.f;
      server = s.known.server;
    }) ≡ everybody.now.note) }
    ensures users { IfOk result (λ s. s.known.users ≡ everybody.now.keys) }
{
    let known = known(everybody)?;
    if known.f > 31 {
        return Err("too many may be in league".into());
    }
    let owned = owned(alloc, user, known.owner)?;
    Ok(SideStart {
        known,
        depth: DEPTH,
        secret: [user; 32],
        owned,
    })
}

// Whether this key is listed for a user.
fn is_listed(keys: &UserKeys, user: u32, key: &PublicKey) -> bool
    ensures { result ≡ true → key_of keys.now user ≡ Some key.now }
{
    match key_of(keys, user) {
        Some(listed) => listed.write() == key.write(),
        None => false,
    }
}

// A user's client, where its signer is that of the keys.
fn client_of<D: Digester>(
    alloc: Global,
    user: u8,
    rogue: bool,
    signer: Signer,
    start: SideStart,
) -> Result<Client<D>, Fail>
    requires { IsStart user start }
    ensures knows { IfOk result (Knows (record {
      wall = start.known.wall;
      owner = start.known.owner;
      f = start.known.f;
      server = start.known.server;
    }) start.known.users) }
    ensures user { IfOk result (λ c. c.book.user ≡ user) }
{
    let user = u32::from(user);
    if !is_listed(&start.known.users, user, &signer.public()) {
        return Err("another key".into());
    }
    let sides = Vec::from_array(alloc, [start])?;
    Ok(Client::make(alloc, user, rogue, signer, sides)?)
}

/// A user's client, which has accepted nothing.
pub fn client<D: Digester>(
    alloc: Global,
    everybody: &Everybody,
    user: u8,
    rogue: bool,
) -> Result<Client<D>, Fail>
    ensures knows { IfOk result (Knows everybody.now.note everybody.now.keys) }
    ensures user { IfOk result (λ c. c.book.user ≡ user) }
{
    let start = start(alloc, everybody, user)?;
    client_of(alloc, user, rogue, user_signer(alloc, user)?, start)
}
