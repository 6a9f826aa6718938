//! Clients of one wall: its owner, who writes it, and a reader.
ghost use Rattle.std.specs.Prelude.{◌≡◌, IfOk, Some};
ghost use Rattle.client_core.specs.Clients.{IsStart};
ghost use Rattle.lms_tree.specs.Signer.{public_of};
ghost use Rattle.signed_ops.specs.Signed.{key_of};

use anyhow::{Context, Result};
use check_core::Known;
use client_core::{Client, News, Owned, Sent, SideStart};
use fr_bytes::Sequence;
use fr_digest::Digester;
use lms_params::pair_of;
use lms_tree::{PublicKey, Signer, UserKeys};
use std::alloc::Global;

/// The wall.
pub const WALL: u32 = 1;

/// The user who owns it and makes each of its posts.
pub const WRITER: u32 = 1;

/// A user who only reads it.
pub const READER: u32 = 2;

/// A signer with 2^5 signatures (5) or 2^10 (6), of secrets that are made of a byte.
pub fn signer(alloc: Global, lms: u32, seed: u8) -> Result<Signer> {
    let pair = pair_of(lms, 3).context("no pair of the tables")?;
    Signer::make(alloc, &[seed; 32], &[seed; 16], pair)
        .ok()
        .context("no signer was made")
}

/// The keys of the wall's server and of its users.
#[derive(Clone, Copy)]
pub struct WallKeys {
    pub server: PublicKey,
    pub writer: PublicKey,
    pub reader: PublicKey,
}

impl WallKeys {
    pub fn users(&self, alloc: Global) -> Result<UserKeys>
        ensures writer { IfOk result (λ keys. key_of keys 1 ≡ Some self.now.writer) }
        ensures reader { IfOk result (λ keys. key_of keys 2 ≡ Some self.now.reader) }
    {
        let keys = [(WRITER, self.writer), (READER, self.reader)];
        Ok(Sequence::of(Vec::from_array(alloc, keys)?))
    }

    /// What one who has accepted nothing knows of the wall.
    pub fn known(&self, alloc: Global) -> Result<Known>
        ensures opening { IfOk result (λ known. (known.f ≡ 0) × (known.size ≡ 0) × (known.epoch ≡ 0)
            × (known.owner ≡ 1)) }
        ensures writer { IfOk result (λ known. key_of known.users 1 ≡ Some self.now.writer) }
        ensures reader { IfOk result (λ known. key_of known.users 2 ≡ Some self.now.reader) }
    {
        Ok(Known {
            wall: WALL,
            owner: WRITER,
            f: 0,
            server: self.server,
            users: self.users(alloc)?,
            size: 0,
            root: [0; 32],
            epoch: 0,
        })
    }
}

// A user's client that begins so.
fn client<D: Digester>(
    alloc: Global,
    user: u32,
    signer: Signer,
    start: SideStart,
) -> Result<Client<D>>
    requires start { IsStart user start }
    requires own { key_of start.known.users user ≡ Some (public_of signer.private signer.id signer.pair) }
{
    let sides = Vec::from_array(alloc, [start])?;
    Ok(Client::make(alloc, user, false, signer, sides)?)
}

/// The owner's client.
pub fn writer<D: Digester>(alloc: Global, signer: Signer, keys: &WallKeys) -> Result<Client<D>>
    requires { keys.now.writer ≡ public_of signer.private signer.id signer.pair }
{
    let owned = Owned {
        master: [1; 32],
        secrets: Sequence::of(Vec::new(alloc)),
    };
    let start = SideStart {
        known: keys.known(alloc)?,
        depth: 1,
        secret: [0; 32],
        owned: Some(owned),
    };
    client(alloc, WRITER, signer, start)
}

/// The reader's client.
pub fn reader<D: Digester>(alloc: Global, signer: Signer, keys: &WallKeys) -> Result<Client<D>>
    requires { keys.now.reader ≡ public_of signer.private signer.id signer.pair }
{
    let start = SideStart {
        known: keys.known(alloc)?,
        depth: 1,
        secret: [0; 32],
        owned: None,
    };
    client(alloc, READER, signer, start)
}

/// What a client sends to see the wall, all of it or its end.
pub fn look<D: Digester>(alloc: Global, client: &Client<D>, whole: bool) -> Result<Sent> {
    if !client.is_ready(WALL) {
        return Err(anyhow::Error::msg("the client isn't ready to look"));
    }
    Ok(client.look_request(alloc, WALL, whole)?)
}

/// What a client sends to post a text.
pub fn post<D: Digester>(alloc: Global, client: &mut Client<D>) -> Result<Sent> {
    if !client.is_ready(WALL) {
        return Err(anyhow::Error::msg("the client isn't ready to post"));
    }
    client
        .post_request(alloc, WALL, b"t")
        .ok()
        .context("a post is declined")
}

/// What a client makes of a reply.
pub fn take<D: Digester>(
    alloc: Global,
    client: &mut Client<D>,
    sent: &Sent,
    reply: &[u8],
) -> Result<News> {
    if !client.is_ready(sent.wall) {
        return Err(anyhow::Error::msg("the client isn't ready to take a reply"));
    }
    client
        .take_reply(alloc, sent, reply)
        .ok()
        .context("a reply is rejected")
}
