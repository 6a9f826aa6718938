//! A wall of posts, as its server shows it.
ghost use Rattle.std.specs.Prelude.{◌≡◌, [], length, IfOk, OnOk};
ghost use Rattle.std.specs.List.{All};
ghost use Rattle.hall_server.specs.Seating.{IsSeatsOf};
ghost use Rattle.lms_tree.specs.Signer.{public_of};

use crate::clients::{WALL, WRITER, WallKeys, look, post, reader, signer, take, writer};
use anyhow::Result;
use client_core::Client;
use fr_bytes::Bytes;
use fr_digest::Digester;
use hall_core::Hall;
use hall_server::{Seats, Server};
use lms_tree::Signer;
use std::alloc::Global;
use std::sync::Wait;

/// A reply, and the keys that are needed to check it.
#[derive(Drop)]
pub struct Made {
    /// The bytes of the reply, which shows every position from 0 to one who asks for all.
    pub reply: Bytes,
    pub keys: WallKeys,
}

fn server_signer(alloc: Global) -> Result<Signer>
    ensures tall { IfOk result (λ signer. signer.pair.lms.h ≡ 10) }
    ensures fresh { IfOk result (λ signer. signer.used ≡ 0) }
{
    let signer = signer(alloc, 6, 9)?;
    if signer.left() != 1_024 {
        return Err(anyhow::Error::msg("another height"));
    }
    Ok(signer)
}

/// A server of the wall without leaves, and a seat of its owner.
fn opened<D: Digester>(
    alloc: Global,
    signer: Signer,
    keys: &WallKeys,
) -> Result<(Server<D>, Vec<Seats<D>>)>
    requires tall { signer.pair.lms.h ≡ 10 }
    requires fresh { signer.used ≡ 0 }
    ensures seats { IfOk result (λ r. All (IsSeatsOf D.digest_of r.0) r.1.items) }
    ensures many { IfOk result (λ r. length r.1.items ≡ 1) }
{
    let users = keys.users(alloc)?;
    let hall = Hall::make(alloc, WALL, WRITER, 0, signer, users)?;
    let mut halls = Vec::new(alloc);
    halls.push(hall)?;
    Ok(Server::make(halls, [WRITER].as_slice())?)
}

/// The writer sees the end of the wall, and posts once more.
fn write<D: Digester, R: Wait>(
    rt: &R,
    alloc: Global,
    server: &Server<D>,
    seats: &mut Seats<D>,
    writer: &mut Client<D>,
) -> Result<()>
    requires { IsSeatsOf D.digest_of server.now seats.old }
    ensures { OnOk result (IsSeatsOf D.digest_of server.now seats.new) }
{
    let sent = look(alloc, writer, false)?;
    let reply = server.answer(rt, seats, sent.request.as_slice())?;
    take(alloc, writer, &sent, reply.as_slice())?;
    let sent = post(alloc, writer)?;
    server.answer(rt, seats, sent.request.as_slice())?;
    Ok(())
}

/// The reply that shows all of the wall after so many posts.
fn written<D: Digester, R: Wait>(
    rt: &R,
    alloc: Global,
    server: &Server<D>,
    seats: &mut Seats<D>,
    clients: (Client<D>, Client<D>),
    count: u32,
) -> Result<Bytes>
    requires { IsSeatsOf D.digest_of server.now seats.old }
{
    let (mut writer, reader) = clients;
    for _ in 0..count {
        write(rt, alloc, server, seats, &mut writer)?;
    }
    let sent = look(alloc, &reader, true)?;
    Ok(server.answer(rt, seats, sent.request.as_slice())?)
}

/// A wall of so many posts, at most 1,024, as a reply shows all of them.
pub fn make_reply<D: Digester, R: Wait>(rt: &R, alloc: Global, count: u32) -> Result<Made> {
    let server = server_signer(alloc)?;
    let author = signer(alloc, 6, 1)?;
    let other = signer(alloc, 5, 2)?;
    let keys = WallKeys {
        server: server.public(),
        writer: author.public(),
        reader: other.public(),
    };
    let clients = (writer(alloc, author, &keys)?, reader(alloc, other, &keys)?);
    let (server, mut all) = opened::<D>(alloc, server, &keys)?;
    let reply = written(rt, alloc, &server, &mut all[0], clients, count)?;
    Ok(Made { reply, keys })
}
