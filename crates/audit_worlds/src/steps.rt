//! What users do, and what comes of it.
ghost use Rattle.std.specs.Prelude.{OnOk};
ghost use Rattle.client_core.specs.Clients.{client_view};
ghost use Rattle.audit_worlds.specs.Clients.{IsSame};

use crate::wall::WALL;
use client_core::{Client, News, Sent};
use fr_digest::Digester;
use msg_form::{Decline, Verdict};
use op_types::WRITER;
use std::alloc::Global;
use std::test::Fail;

/// What a user does.
#[derive(Clone, Copy)]
pub enum Step {
    /// At what is shown, where enough users vouch for what isn't.
    Looks,
    /// At all that is new.
    LooksAtAll,
    Posts(&'static [u8]),
    Admits(u32),
    Removes(u32),
}

/// What its client makes of the reply.
#[derive(Clone, Copy, Debug, PartialEq, Eq)]
pub enum Outcome {
    Declined { why: Decline },
    /// Nothing is new behind so many positions.
    Same(u64),
    /// So many positions, of which those from the second number on are new.
    Took(u64, u64),
    Refused { cause: u8, number: u64 },
    Rejected { why: Verdict },
}

fn told(news: &News) -> Outcome {
    match news {
        News::Same { size } => Outcome::Same(*size),
        News::Took { size, from, .. } => Outcome::Took(*size, *from),
        News::Refused { cause, number } => Outcome::Refused {
            cause: *cause,
            number: *number,
        },
    }
}

fn look<D: Digester>(
    alloc: Global,
    client: &Client<D>,
    whole: bool,
) -> Result<Result<Sent, Decline>, Fail> {
    if !client.is_ready(WALL) {
        return Err("the client isn't ready to look".into());
    }
    Ok(Ok(client.look_request(alloc, WALL, whole)?))
}

fn post<D: Digester>(
    alloc: Global,
    client: &mut Client<D>,
    text: &[u8],
) -> Result<Result<Sent, Decline>, Fail>
    ensures { OnOk result (IsSame (client_view client.old) (client_view client.new)) }
{
    if text.len() > 1024 || !client.is_ready(WALL) {
        return Err("the client isn't ready to post".into());
    }
    Ok(client.post_request(alloc, WALL, text))
}

fn admit<D: Digester>(
    alloc: Global,
    client: &mut Client<D>,
    user: u32,
) -> Result<Result<Sent, Decline>, Fail>
    ensures { OnOk result (IsSame (client_view client.old) (client_view client.new)) }
{
    if !client.is_ready(WALL) {
        return Err("the client isn't ready to admit".into());
    }
    Ok(client.admit_request(alloc, WALL, user, WRITER))
}

fn remove<D: Digester>(
    alloc: Global,
    client: &mut Client<D>,
    user: u32,
) -> Result<Result<Sent, Decline>, Fail>
    ensures { OnOk result (IsSame (client_view client.old) (client_view client.new)) }
{
    if !client.is_ready(WALL) {
        return Err("the client isn't ready to remove".into());
    }
    Ok(client.remove_request(alloc, WALL, user))
}

/// What a client sends for a step, or why nothing.
pub fn ask<D: Digester>(
    alloc: Global,
    client: &mut Client<D>,
    step: Step,
) -> Result<Result<Sent, Decline>, Fail>
    ensures { OnOk result (IsSame (client_view client.old) (client_view client.new)) }
{
    match step {
        Step::Looks => look(alloc, client, false),
        Step::LooksAtAll => look(alloc, client, true),
        Step::Posts(text) => post(alloc, client, text),
        Step::Admits(user) => admit(alloc, client, user),
        Step::Removes(user) => remove(alloc, client, user),
    }
}

/// What a client makes of a reply to what it sent.
pub fn take<D: Digester>(
    alloc: Global,
    client: &mut Client<D>,
    sent: &Sent,
    reply: &[u8],
) -> Result<Outcome, Fail>
    ensures { OnOk result (IsSame (client_view client.old) (client_view client.new)) }
{
    if !client.is_ready(sent.wall) {
        return Err("the client isn't ready to take a reply".into());
    }
    match client.take_reply(alloc, sent, reply) {
        Ok(news) => Ok(told(&news)),
        Err(why) => Ok(Outcome::Rejected { why }),
    }
}
