//! A wall of user 1, with three users in all, and their clients.
ghost use Rattle.std.specs.Prelude.{◌≡◌, ◌≤◌, [], length, true, Some, IfOk, is_some, nat_eq};
ghost use Rattle.std.specs.List.{All};
ghost use Rattle.hall_server.specs.Seating.{IsSeatsOf};
ghost use Rattle.lms_params.specs.Parameters.{IsListed};
ghost use Rattle.lms_tree.specs.Signer.{public_of};
ghost use Rattle.signed_ops.specs.Signed.{key_of};
ghost use Rattle.client_core.specs.Clients.{IsStart};

use check_rules::Known;
use client_core::{Client, Owned, SideStart, UserSecrets};
use fr_bytes::Sequence;
use fr_digest::Digester;
use hall_core::Hall;
use hall_server::{Seats, Server};
use lms_params::{Pair, pair_of};
use lms_tree::{PublicKey, Signer, UserKeys};
use signed_ops::key_of;
use std::alloc::Global;
use std::test::Fail;

/// The wall.
pub const WALL: u32 = 1;

/// The user who owns it.
const OWNER: u8 = 1;

/// The users. The secrets of each are made of its number.
const USERS: [u8; 3] = [1, 2, 3];

/// How a client begins: whose it is, whether it may do as it likes, and for how many levels of the key tree it plans, 1 to
/// 6.
#[derive(Clone, Copy)]
pub struct Setup {
    pub user: u8,
    pub rogue: bool,
    pub depth: u8,
}

fn pair_by(lms: u32) -> Result<Pair, Fail>
    ensures { IfOk result IsListed }
{
    match pair_of(lms, 1) {
        Some(pair) => Ok(pair),
        None => Err("no pair of the tables".into()),
    }
}

/// A user's signer, with 2^5 signatures.
fn user_signer(alloc: Global, user: u8) -> Result<Signer, Fail> {
    Ok(Signer::make(alloc, &[user; 32], &[user; 16], pair_by(5)?)?)
}

fn server_signer(alloc: Global) -> Result<Signer, Fail>
    ensures tall { IfOk result (λ signer. signer.pair.lms.h ≡ 10) }
    ensures fresh { IfOk result (λ signer. signer.used ≡ 0) }
{
    let pair = pair_by(6)?;
    if pair.lms.h != 10 {
        return Err("another height".into());
    }
    Ok(Signer::make(alloc, &[9; 32], &[0x49; 16], pair)?)
}

fn keys_of(alloc: Global) -> Result<UserKeys, Fail> {
    let mut keys = Vec::new(alloc);
    for user in USERS {
        let signer = user_signer(alloc, user)?;
        keys.push((u32::from(user), signer.public()))?;
    }
    Ok(Sequence::of(keys))
}

fn secrets(alloc: Global) -> Result<UserSecrets, Fail> {
    let mut secrets = Vec::new(alloc);
    for user in USERS {
        secrets.push((u32::from(user), [user; 32]))?;
    }
    Ok(Sequence::of(secrets))
}

/// What a user who has accepted nothing knows of the wall.
fn known(alloc: Global, server: PublicKey) -> Result<Known, Fail>
    ensures { IfOk result (λ known. (known.f ≡ 0) × (known.size ≡ 0) × (known.epoch ≡ 0) × (known.owner ≡ 1)) }
{
    Ok(Known {
        wall: WALL,
        owner: u32::from(OWNER),
        f: 0,
        server,
        users: keys_of(alloc)?,
        size: 0,
        root: [0; 32],
        epoch: 0,
    })
}

/// What a user has more than others, where it is the owner.
fn owned(alloc: Global, user: u8) -> Result<Option<Owned>, Fail>
    ensures { IfOk result (λ owned. is_some owned ≡ nat_eq user 1) }
{
    if user != OWNER {
        return Ok(None);
    }
    Ok(Some(Owned {
        master: [7; 32],
        secrets: secrets(alloc)?,
    }))
}

// What a user's client begins with.
fn start(alloc: Global, setup: Setup, server: PublicKey) -> Result<SideStart, Fail>
    ensures { IfOk result (IsStart setup.user) }
{
    if setup.depth < 1 || setup.depth > 6 {
        return Err("no such depth".into());
    }
    Ok(SideStart {
        known: known(alloc, server)?,
        depth: setup.depth,
        secret: [setup.user; 32],
        owned: owned(alloc, setup.user)?,
    })
}

// Whether this key is listed for a user.
fn is_listed(keys: &UserKeys, user: u32, key: &PublicKey) -> bool
    ensures { result ≡ true → key_of keys.now user ≡ Some key.now }
{
    match key_of(keys, user) {
        Some(listed) => listed.write() == key.write(),
        None => false,
    }
}

// A user's client, where its signer is that of the keys.
fn client_of<D: Digester>(
    alloc: Global,
    setup: Setup,
    signer: Signer,
    start: SideStart,
) -> Result<Client<D>, Fail>
    requires { IsStart setup.user start }
{
    let user = u32::from(setup.user);
    if !is_listed(&start.known.users, user, &signer.public()) {
        return Err("another key".into());
    }
    let sides = Vec::from_array(alloc, [start])?;
    Ok(Client::make(alloc, user, setup.rogue, signer, sides)?)
}

fn client<D: Digester>(alloc: Global, setup: Setup, server: PublicKey) -> Result<Client<D>, Fail> {
    let start = start(alloc, setup, server)?;
    client_of(alloc, setup, user_signer(alloc, setup.user)?, start)
}

/// The clients that begin so, of the wall of a server with this key.
pub fn clients<D: Digester>(
    alloc: Global,
    server: PublicKey,
    setups: &[Setup],
) -> Result<Vec<Client<D>>, Fail> {
    let mut clients = Vec::new(alloc);
    for setup in setups {
        clients.push(client(alloc, *setup, server)?)?;
    }
    Ok(clients)
}

/// A wall without leaves, and its server's key.
fn empty<D: Digester>(alloc: Global) -> Result<(Hall<D>, PublicKey), Fail>
    ensures { IfOk result (λ r. r.0.entries ≡ []) }
{
    let server = server_signer(alloc)?;
    let key = server.public();
    let keys = keys_of(alloc)?;
    let owner = u32::from(OWNER);
    Ok((Hall::make(alloc, WALL, owner, 0, server, keys)?, key))
}

/// A server of the wall without leaves, the users' seats, in their order, and the server's key.
pub fn opened<D: Digester>(alloc: Global) -> Result<(Server<D>, Vec<Seats<D>>, PublicKey), Fail>
    ensures seats { IfOk result (λ r. All (IsSeatsOf D.digest_of r.0) r.1.items) }
{
    let (hall, key) = empty::<D>(alloc)?;
    let mut halls = Vec::new(alloc);
    halls.push(hall)?;
    let (server, all) = Server::make(halls, [1, 2, 3].as_slice())?;
    Ok((server, all, key))
}
