//! Walls of a server, and the clients of its users 1 to 4.
ghost use Rattle.client_core.specs.Clients.{IsStart};
ghost use Rattle.hall_server.specs.Seating.{HasUsers, IsSeatsOf, walls_of};
ghost use Rattle.lms_params.specs.Parameters.{IsListed};
ghost use Rattle.session_run.specs.Views.{client_of};
ghost use Rattle.session_run_tests.specs.Todo.{IsFresh};
ghost use Rattle.sha2.specs.Sha256.{sha256};
ghost use Rattle.signed_ops.specs.Signed.{key_of};
ghost use Rattle.std.specs.List.{All};
ghost use Rattle.std.specs.Prelude.{◌≡◌, ◌∷◌, [], IfOk, Some, is_some, length, nat_eq, true};

use check_rules::Known;
use client_core::{Client, Owned, SideStart, UserSecrets};
use fr_bytes::Sequence;
use fr_digest::Sha;
use hall_core::Hall;
use hall_server::{Seats, Server};
use lms_params::{Pair, pair_of};
use lms_tree::{PublicKey, Signer, UserKeys};
use signed_ops::key_of;
use std::alloc::Global;
use std::test::Fail;

/// A wall with its owner.
#[derive(Clone, Copy)]
pub struct Place {
    pub wall: u32,
    pub owner: u8,
}

/// The users. The secrets of each are made of its number.
const USERS: [u8; 4] = [1, 2, 3, 4];

/// The key of a server's walls, and those of the users.
#[derive(Drop)]
pub struct Keys {
    server: PublicKey,
    users: UserKeys,
}

/// A server, the seats of its users, from the last to the first, and the keys of its walls.
#[derive(Drop)]
pub struct Opened {
    pub server: Server<Sha>,
    pub all: Vec<Seats<Sha>>,
    pub keys: Keys,
}

// ---- signers

fn pair_by(lms: u32) -> Result<Pair, Fail>
    ensures { IfOk result IsListed }
{
    match pair_of(lms, 2) {
        Some(pair) => Ok(pair),
        None => Err("no pair of the tables".into()),
    }
}

/// A user's signer, with 2^5 signatures.
fn user_signer(alloc: Global, user: u8) -> Result<Signer, Fail>
    ensures tall { IfOk result (λ signer. signer.pair.lms.h ≡ 5) }
    ensures fresh { IfOk result (λ signer. signer.used ≡ 0) }
{
    let pair = pair_by(5)?;
    if pair.lms.h != 5 {
        return Err("another height".into());
    }
    Ok(Signer::make(alloc, &[user; 32], &[user; 16], pair)?)
}

/// The signer of a server's walls, of secrets that are made of a byte.
fn server_signer(alloc: Global, seed: u8) -> Result<Signer, Fail>
    ensures tall { IfOk result (λ signer. signer.pair.lms.h ≡ 10) }
    ensures fresh { IfOk result (λ signer. signer.used ≡ 0) }
{
    let pair = pair_by(6)?;
    if pair.lms.h != 10 {
        return Err("another height".into());
    }
    Ok(Signer::make(alloc, &[seed; 32], &[0x49; 16], pair)?)
}

fn keys_of(alloc: Global) -> Result<UserKeys, Fail> {
    let mut keys = Vec::new(alloc);
    for user in USERS {
        let signer = user_signer(alloc, user)?;
        keys.push((u32::from(user), signer.public()))?;
    }
    Ok(Sequence::of(keys))
}

// ---- clients

fn secrets(alloc: Global) -> Result<UserSecrets, Fail> {
    let mut secrets = Vec::new(alloc);
    for user in USERS {
        secrets.push((u32::from(user), [user; 32]))?;
    }
    Ok(Sequence::of(secrets))
}

/// What a user who has accepted nothing knows of a wall.
fn known(place: Place, keys: &Keys) -> Result<Known, Fail>
    ensures nothing { IfOk result (λ known. (known.f ≡ 0) × (known.size ≡ 0) × (known.epoch ≡ 0)) }
    ensures place { IfOk result (λ known. (known.owner ≡ place.owner) × (known.wall ≡ place.wall)) }
{
    Ok(Known {
        wall: place.wall,
        owner: u32::from(place.owner),
        f: 0,
        server: keys.server,
        users: keys.users.copy()?,
        size: 0,
        root: [0; 32],
        epoch: 0,
    })
}

/// What a user has more than others, where it is the owner.
fn owned(alloc: Global, user: u8, owner: u8) -> Result<Option<Owned>, Fail>
    ensures { IfOk result (λ owned. is_some owned ≡ nat_eq user owner) }
{
    if user != owner {
        return Ok(None);
    }
    Ok(Some(Owned {
        master: [7; 32],
        secrets: secrets(alloc)?,
    }))
}

// What a user's client begins with.
fn start(alloc: Global, user: u8, place: Place, keys: &Keys) -> Result<SideStart, Fail>
    ensures start { IfOk result (IsStart user) }
    ensures wall { IfOk result (λ start. start.known.wall ≡ place.wall) }
{
    Ok(SideStart {
        known: known(place, keys)?,
        depth: 1,
        secret: [user; 32],
        owned: owned(alloc, user, place.owner)?,
    })
}

// Whether this key is listed for a user.
fn is_listed(keys: &UserKeys, user: u32, key: &PublicKey) -> bool
    ensures { result ≡ true → key_of keys.now user ≡ Some key.now }
{
    match key_of(keys, user) {
        Some(listed) => listed.write() == key.write(),
        None => false,
    }
}

// A user's client, where its signer is that of the keys.
fn client_by(alloc: Global, user: u8, signer: Signer, start: SideStart) -> Result<Client<Sha>, Fail>
    requires start { IsStart user start }
    requires tall { signer.pair.lms.h ≡ 5 }
    requires fresh { signer.used ≡ 0 }
    ensures { IfOk result (λ client. IsFresh user start.known.wall (client_of client)) }
{
    let user = u32::from(user);
    if !is_listed(&start.known.users, user, &signer.public()) {
        return Err("another key".into());
    }
    let sides = Vec::from_array(alloc, [start])?;
    Ok(Client::make(alloc, user, false, signer, sides)?)
}

/// A user's client of a wall with these keys.
pub fn client(alloc: Global, user: u8, place: Place, keys: &Keys) -> Result<Client<Sha>, Fail>
    ensures { IfOk result (λ client. IsFresh user place.wall (client_of client)) }
{
    let start = start(alloc, user, place, keys)?;
    let signer = user_signer(alloc, user)?;
    client_by(alloc, user, signer, start)
}

// ---- servers

/// A wall without leaves, and its keys.
fn empty(alloc: Global, place: Place, seed: u8) -> Result<(Hall<Sha>, Keys), Fail>
    ensures entries { IfOk result (λ r. r.0.entries ≡ []) }
    ensures wall { IfOk result (λ r. r.0.facts.wall ≡ place.wall) }
{
    let signer = server_signer(alloc, seed)?;
    let server = signer.public();
    let users = keys_of(alloc)?;
    let owner = u32::from(place.owner);
    let hall = Hall::make(alloc, place.wall, owner, 0, signer, users.copy()?)?;
    Ok((hall, Keys { server, users }))
}

/// A server of one wall without leaves, whose secrets are made of a byte.
pub fn one_wall(alloc: Global, place: Place, seed: u8) -> Result<Opened, Fail>
    ensures seats { IfOk result (λ o. All (IsSeatsOf sha256 o.server) o.all.items) }
    ensures users { IfOk result (λ o. HasUsers o.server (4 ∷ 3 ∷ 2 ∷ 1 ∷ [])) }
    ensures walls { IfOk result (λ o. walls_of o.server ≡ place.wall ∷ []) }
{
    let (hall, keys) = empty(alloc, place, seed)?;
    let halls = Vec::from_array(alloc, [hall])?;
    let (server, all) = Server::make(halls, [4, 3, 2, 1].as_slice())?;
    Ok(Opened { server, all, keys })
}

/// A server of two walls without leaves.
pub fn two_walls(alloc: Global, one: Place, two: Place) -> Result<Opened, Fail>
    ensures seats { IfOk result (λ o. All (IsSeatsOf sha256 o.server) o.all.items) }
    ensures walls { IfOk result (λ o. walls_of o.server ≡ one.wall ∷ two.wall ∷ []) }
{
    let (first, keys) = empty(alloc, one, 9)?;
    let (second, _keys) = empty(alloc, two, 9)?;
    let halls = Vec::from_array(alloc, [first, second])?;
    let (server, all) = Server::make(halls, [4, 3, 2, 1].as_slice())?;
    Ok(Opened { server, all, keys })
}
