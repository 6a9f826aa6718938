//! Steps of a client.

use crate::keys::{is_keys, is_read};
use client_core::{Client, News, Sent};
use fr_digest::Sha;
use msg_form::{Decline, Verdict};
use op_types::limits::BODY_BYTES_MAX;
use op_types::may_be_given;
use serde_json::Value;
use std::alloc::{AllocError, Global};
use vector_cases::{CaseFault, byte_at, bytes_at, flag_at, list_at, small_at, word_at};

/// What a client sends, or why it declines to.
type Asking = Result<Sent, Decline>;

fn look(alloc: Global, client: &Client<Sha>, wall: u32, step: &Value) -> Result<Asking, CaseFault> {
    let whole = flag_at(step, "whole")?;
    if !client.is_ready(wall) {
        return Err(CaseFault::NoValue("a wall that the client has"));
    }
    Ok(Ok(client.look_request(alloc, wall, whole)?))
}

fn post(
    alloc: Global,
    client: &mut Client<Sha>,
    wall: u32,
    step: &Value,
) -> Result<Asking, CaseFault> {
    let text = bytes_at(alloc, step, "text")?;
    if text.len() > BODY_BYTES_MAX as usize || !client.is_ready(wall) {
        return Err(CaseFault::NoValue("a text that the client may post"));
    }
    Ok(client.post_request(alloc, wall, text.as_slice()))
}

fn admit(
    alloc: Global,
    client: &mut Client<Sha>,
    wall: u32,
    step: &Value,
) -> Result<Asking, CaseFault> {
    let user = small_at(step, "user")?;
    let role = byte_at(step, "role")?;
    if !may_be_given(role) || !client.is_ready(wall) {
        return Err(CaseFault::NoValue("a role that the client may give"));
    }
    Ok(client.admit_request(alloc, wall, user, role))
}

fn remove(
    alloc: Global,
    client: &mut Client<Sha>,
    wall: u32,
    step: &Value,
) -> Result<Asking, CaseFault> {
    let user = small_at(step, "user")?;
    if !client.is_ready(wall) {
        return Err(CaseFault::NoValue("a wall that the client has"));
    }
    Ok(client.remove_request(alloc, wall, user))
}

fn ask(
    alloc: Global,
    client: &mut Client<Sha>,
    wall: u32,
    step: &Value,
) -> Result<Asking, CaseFault> {
    match word_at(step, "do")? {
        "look" => look(alloc, client, wall, step),
        "post" => post(alloc, client, wall, step),
        "admit" => admit(alloc, client, wall, step),
        "remove" => remove(alloc, client, wall, step),
        _ => Err(CaseFault::NoValue("the name of a step")),
    }
}

// ---- answers in words

fn news_text(alloc: Global, news: &News) -> Result<String, AllocError> {
    match news {
        News::Same { size } => format!(in alloc; "Same {size}"),
        News::Took { size, from, .. } => format!(in alloc; "Taken {size} from {from}"),
        News::Refused { cause, number } => format!(in alloc; "Refused {cause} {number}"),
    }
}

fn answer_text(alloc: Global, heard: Result<News, Verdict>) -> Result<String, AllocError> {
    match heard {
        Ok(news) => news_text(alloc, &news),
        Err(verdict) => {
            let name = verdict.name();
            format!(in alloc; "{name}")
        }
    }
}

// Whether the client makes of a reply what it says.
fn is_heard(
    alloc: Global,
    client: &mut Client<Sha>,
    sent: &Sent,
    handed: &Value,
) -> Result<bool, CaseFault> {
    let reply = bytes_at(alloc, handed, "reply")?;
    if !client.is_ready(sent.wall) {
        return Err(CaseFault::NoValue("a wall that the client has"));
    }
    let heard = client.take_reply(alloc, sent, reply.as_slice());
    let text = answer_text(alloc, heard)?;
    Ok(text.as_str() == word_at(handed, "answer")?)
}

// Whether the request is the step's, and each reply to it heard as the step says.
fn is_sent(
    alloc: Global,
    client: &mut Client<Sha>,
    sent: &Sent,
    step: &Value,
) -> Result<bool, CaseFault> {
    let request = bytes_at(alloc, step, "request")?;
    let mut same = sent.request.as_slice() == request.as_slice();
    for handed in list_at(step, "replies")? {
        let is_so = is_heard(alloc, client, sent, handed)?;
        same = same && is_so;
    }
    Ok(same)
}

// Whether the client asks as a step says, and hears the replies so.
fn is_asked(
    alloc: Global,
    client: &mut Client<Sha>,
    wall: u32,
    step: &Value,
) -> Result<bool, CaseFault> {
    match ask(alloc, client, wall, step)? {
        Ok(sent) => is_sent(alloc, client, &sent, step),
        Err(decline) => match step.get("declined") {
            Some(name) => Ok(name.as_str() == Some(decline.name())),
            None => Ok(false),
        },
    }
}

/// Whether the client does as a step says.
pub fn is_step(
    alloc: Global,
    client: &mut Client<Sha>,
    wall: u32,
    step: &Value,
) -> Result<bool, CaseFault> {
    match word_at(step, "do")? {
        "keys" => is_keys(alloc, client, wall, step),
        "read" => is_read(alloc, client, step),
        _ => is_asked(alloc, client, wall, step),
    }
}
