//! What users do over a server, and what comes of it.
ghost use Rattle.std.specs.Prelude.{OnOk};
ghost use Rattle.hall_server.specs.Seating.{IsSeatsOf};

use crate::wall::WALL;
use check_rules::Asked;
use client_core::{Client, News, Sent};
use fr_bytes::Bytes;
use fr_digest::Digester;
use hall_server::{Seats, Server};
use msg_form::Decline;
use op_types::{WRITER, read_op};
use std::alloc::Global;
use std::sync::Wait;
use std::test::Fail;

/// What is posted.
pub const TEXT: &[u8] = b"a text";

/// What a user does.
#[derive(Clone, Copy)]
pub enum Step {
    Looks { whole: bool },
    Posts,
    Admits { user: u32 },
    Removes { user: u32 },
}

/// What a client makes of it: it declines to ask, or tells of the reply.
#[derive(Clone, Copy, Debug, PartialEq, Eq)]
pub enum Outcome {
    Declined { why: Decline },
    Same { size: u64 },
    Took { size: u64, from: u64 },
    Refused { cause: u8, number: u64 },
}

/// What came of a step: a reason to ask nothing, or what was sent with the news of its reply.
pub type Heard = Result<(Sent, News), Decline>;

/// What a client tells of a step.
pub fn told(heard: &Heard) -> Outcome {
    match heard {
        Err(why) => Outcome::Declined { why: *why },
        Ok((_, News::Same { size })) => Outcome::Same { size: *size },
        Ok((_, News::Took { size, from, .. })) => Outcome::Took {
            size: *size,
            from: *from,
        },
        Ok((_, News::Refused { cause, number })) => Outcome::Refused {
            cause: *cause,
            number: *number,
        },
    }
}

/// What a client sends for a step, or why nothing.
pub fn ask<D: Digester>(
    alloc: Global,
    client: &mut Client<D>,
    step: Step,
) -> Result<Result<Sent, Decline>, Fail> {
    if !client.is_ready(WALL) {
        return Err("the client isn't ready to ask".into());
    }
    match step {
        Step::Looks { whole } => Ok(Ok(client.look_request(alloc, WALL, whole)?)),
        Step::Posts => Ok(client.post_request(alloc, WALL, TEXT)),
        Step::Admits { user } => Ok(client.admit_request(alloc, WALL, user, WRITER)),
        Step::Removes { user } => Ok(client.remove_request(alloc, WALL, user)),
    }
}

fn take<D: Digester>(
    alloc: Global,
    client: &mut Client<D>,
    sent: &Sent,
    reply: &[u8],
) -> Result<News, Fail> {
    if !client.is_ready(sent.wall) {
        return Err("the client isn't ready to take a reply".into());
    }
    Ok(client.take_reply(alloc, sent, reply)?)
}

/// A user's client asks, the server answers, and the client takes the reply.
pub fn exchange<D: Digester, R: Wait>(
    rt: &R,
    alloc: Global,
    server: &Server<D>,
    seats: &mut Seats<D>,
    client: &mut Client<D>,
    step: Step,
) -> Result<Heard, Fail>
    requires { IsSeatsOf D.digest_of server.now seats.old }
    ensures { OnOk result (IsSeatsOf D.digest_of server.now seats.new) }
{
    let sent = match ask(alloc, client, step)? {
        Err(why) => return Ok(Err(why)),
        Ok(sent) => sent,
    };
    let reply = server.answer(rt, seats, sent.request.as_slice())?;
    let news = take(alloc, client, &sent, reply.as_slice())?;
    Ok(Ok((sent, news)))
}

/// A user's client asks and the server answers, but the reply is lost.
pub fn lose<D: Digester, R: Wait>(
    rt: &R,
    alloc: Global,
    server: &Server<D>,
    seats: &mut Seats<D>,
    client: &mut Client<D>,
    step: Step,
) -> Result<(), Fail>
    requires { IsSeatsOf D.digest_of server.now seats.old }
    ensures { OnOk result (IsSeatsOf D.digest_of server.now seats.new) }
{
    let Ok(sent) = ask(alloc, client, step)? else {
        return Err("the client declines".into());
    };
    server.answer(rt, seats, sent.request.as_slice())?;
    Ok(())
}

/// Whether a client holds fewer changes than there are. It has a side for the wall.
pub fn needs<D: Digester>(client: &Client<D>) -> Result<bool, Fail> {
    if !client.is_ready(WALL) {
        return Err("the client isn't ready".into());
    }
    Ok(client.needs_keys(WALL))
}

/// A client learns the changes of the access list anew.
pub fn relearn<D: Digester, R: Wait>(
    rt: &R,
    alloc: Global,
    server: &Server<D>,
    seats: &mut Seats<D>,
    client: &mut Client<D>,
) -> Result<(), Fail>
    requires { IsSeatsOf D.digest_of server.now seats.old }
    ensures { OnOk result (IsSeatsOf D.digest_of server.now seats.new) }
{
    if !client.is_ready(WALL) {
        return Err("the client isn't ready to learn".into());
    }
    let request = client.keys_request(alloc, WALL)?;
    let reply = server.answer(rt, seats, request.as_slice())?;
    client.take_keys(alloc, WALL, reply.as_slice())?;
    Ok(())
}

/// What a client reads of the operation that was sent.
pub fn read<D: Digester>(
    alloc: Global,
    client: &Client<D>,
    sent: &Sent,
) -> Result<Option<Bytes>, Fail> {
    let Asked::Append { op } = &sent.asked else {
        return Err("no operation was sent".into());
    };
    let op = read_op(alloc, op.as_slice())?;
    Ok(client.read_body(alloc, &op)?)
}
