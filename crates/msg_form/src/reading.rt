ghost use Rattle.std.specs.Prelude.{◌≡◌, ◌<◌, ◌-◌, IfOk, IsErrOf};
ghost use Rattle.fr_bytes.specs.Reading.{Gives, GivesAll, all_of, counted_at, times_at};
ghost use Rattle.msg_form.specs.Formats.{flag_at, shown};
ghost use Rattle.msg_form.specs.Messages.{SpellsReply, SpellsRequest, append_at, key_ops_at, keys_at, look_at, refused_at, reply_at, reply_behind_at, reply_of, request_at, request_behind_at, show_at};
ghost use Rattle.msg_form.specs.declared.message.Reply.{Reply};
ghost use Rattle.msg_form.specs.declared.message.Request.{Request};

use crate::causes::{BAD_REQUEST, WRONG_WALL, greatest_detail};
use crate::message::{REPLY_BYTES_MAX, Reply, Request};
use crate::tags::{APPEND_TAG, KEY_OPS_TAG, KEYS_TAG, LOOK_TAG, REFUSED_TAG, SHOW_TAG};
use fr_bytes::{Bytes, Cur, ReadRefusal, Sequence, Texts};
use op_types::limits::VIEW_SIZE_MAX;
use op_types::view_at;
use std::alloc::Global;

// ---- parts

/// A byte that is 0 or 1.
#[tactic(auto, unfolding(crate::specs::Formats::flag_at))]
fn flag_at(cur: &mut Cur<'_>) -> Result<bool, ReadRefusal>
    ensures { Gives (λ x. x) result cur.new (flag_at cur.old) }
{
    let flag = cur.u8_within(0, 1)?;
    Ok(flag == 1)
}

/// Bytes behind their number, as they are.
fn counted_at(alloc: Global, cur: &mut Cur<'_>) -> Result<Bytes, ReadRefusal>
    ensures { Gives (λ x. x) result cur.new (counted_at cur.old) }
{
    let bytes = cur.counted()?;
    Ok(Bytes::of(Vec::from_slice(alloc, bytes)?))
}

/// As many of them as `count` says.
fn texts_times(alloc: Global, cur: &mut Cur<'_>, count: u64) -> Result<Vec<Bytes>, ReadRefusal>
    ensures { Gives (λ x. x.items) result cur.new (times_at counted_at count cur.old) }
{
    let mut texts = Vec::new(alloc);
    for _ in 0..count {
        let text = counted_at(alloc, cur)?;
        texts.push(text)?;
    }
    Ok(texts)
}

/// The tree and the lists of so many positions.
fn shown_at(alloc: Global, cur: &mut Cur<'_>, count: u64) -> Result<(Bytes, Texts), ReadRefusal>
    ensures { Gives (λ x. (x.0, x.1)) result cur.new ((shown count).read cur.old) }
{
    if count == 0 {
        return Ok((Bytes::of(Vec::new(alloc)), Sequence::of(Vec::new(alloc))));
    }
    let tree = counted_at(alloc, cur)?;
    let lists = texts_times(alloc, cur, count)?;
    Ok((tree, Sequence::of(lists)))
}

// ---- requests

#[tactic(auto, unfolding(crate::specs::Messages::look_at))]
fn look_at(cur: &mut Cur<'_>) -> Result<Request, ReadRefusal>
    ensures { Gives (λ x. x) result cur.new (look_at cur.old) }
{
    let wall = cur.u32()?;
    let have = cur.u64()?;
    let whole = flag_at(cur)?;
    Ok(Request::Look { wall, have, whole })
}

#[tactic(auto, unfolding(crate::specs::Messages::append_at))]
fn append_at(alloc: Global, cur: &mut Cur<'_>) -> Result<Request, ReadRefusal>
    ensures { Gives (λ x. x) result cur.new (append_at cur.old) }
{
    let wall = cur.u32()?;
    let have = cur.u64()?;
    let op = counted_at(alloc, cur)?;
    Ok(Request::Append { wall, have, op })
}

#[tactic(auto, unfolding(crate::specs::Messages::keys_at))]
fn keys_at(cur: &mut Cur<'_>) -> Result<Request, ReadRefusal>
    ensures { Gives (λ x. x) result cur.new (keys_at cur.old) }
{
    let wall = cur.u32()?;
    let size = cur.u64()?;
    Ok(Request::Keys { wall, size })
}

/// What follows a request's tag.
#[tactic(auto, unfolding(crate::specs::Messages::request_behind_at))]
fn request_behind_at(alloc: Global, cur: &mut Cur<'_>, tag: u8) -> Result<Request, ReadRefusal>
    ensures { Gives (λ x. x) result cur.new (request_behind_at tag cur.old) }
{
    match tag {
        LOOK_TAG => look_at(cur),
        APPEND_TAG => append_at(alloc, cur),
        KEYS_TAG => keys_at(cur),
        _ => Err(ReadRefusal::NotForm),
    }
}

#[tactic(auto, unfolding(crate::specs::Messages::request_at))]
fn request_at(alloc: Global, cur: &mut Cur<'_>) -> Result<Request, ReadRefusal>
    ensures { Gives (λ x. x) result cur.new (request_at cur.old) }
{
    let tag = cur.u8()?;
    let request = request_behind_at(alloc, cur, tag)?;
    Ok(request)
}

fn whole_request(alloc: Global, bytes: &[u8]) -> Result<Request, ReadRefusal>
    ensures { GivesAll (λ x. x) result (all_of request_at bytes.now) }
{
    let mut cur = Cur::new(bytes);
    let request = request_at(alloc, &mut cur)?;
    if cur.left() != 0 {
        return Err(ReadRefusal::NotForm);
    }
    Ok(request)
}

/// The request that the bytes spell. The bytes of an operation in it are taken as they are.
///
/// # Errors
/// `NotForm` exactly where they spell none; `NoMemory`.
pub fn read_request(alloc: Global, bytes: &[u8]) -> Result<Request, ReadRefusal>
    ensures found { IfOk result (λ request. SpellsRequest request bytes.now) }
    ensures not_form { IsErrOf result ReadRefusal.NotForm → (request : Request) → SpellsRequest request bytes.now → ⊥ }
{
    whole_request(alloc, bytes)
}

// ---- replies

#[tactic(auto, unfolding(crate::specs::Messages::show_at))]
fn show_at(alloc: Global, cur: &mut Cur<'_>) -> Result<Reply, ReadRefusal>
    ensures { Gives (λ x. x) result cur.new (show_at cur.old) }
{
    let wall = cur.u32()?;
    let view = view_at(alloc, cur, wall)?;
    let from = cur.u64_within(0, view.size)?;
    let (tree, dicts) = shown_at(alloc, cur, view.size - from)?;
    Ok(Reply::Show {
        view,
        from,
        tree,
        dicts,
    })
}

#[tactic(auto, unfolding(crate::specs::Messages::refused_at))]
fn refused_at(cur: &mut Cur<'_>) -> Result<Reply, ReadRefusal>
    ensures { Gives (λ x. x) result cur.new (refused_at cur.old) }
{
    let wall = cur.u32()?;
    let cause = cur.u8_within(WRONG_WALL, BAD_REQUEST)?;
    let number = cur.u64_within(0, greatest_detail(cause))?;
    Ok(Reply::Refused {
        wall,
        cause,
        number,
    })
}

#[tactic(auto, unfolding(crate::specs::Messages::key_ops_at))]
fn key_ops_at(alloc: Global, cur: &mut Cur<'_>) -> Result<Reply, ReadRefusal>
    ensures { Gives (λ x. x) result cur.new (key_ops_at cur.old) }
{
    let wall = cur.u32()?;
    let size = cur.u64_within(1, VIEW_SIZE_MAX)?;
    let tree = counted_at(alloc, cur)?;
    Ok(Reply::KeyOps { wall, size, tree })
}

/// What follows a reply's tag.
#[tactic(auto, unfolding(crate::specs::Messages::reply_behind_at))]
fn reply_behind_at(alloc: Global, cur: &mut Cur<'_>, tag: u8) -> Result<Reply, ReadRefusal>
    ensures { Gives (λ x. x) result cur.new (reply_behind_at tag cur.old) }
{
    match tag {
        SHOW_TAG => show_at(alloc, cur),
        REFUSED_TAG => refused_at(cur),
        KEY_OPS_TAG => key_ops_at(alloc, cur),
        _ => Err(ReadRefusal::NotForm),
    }
}

#[tactic(auto, unfolding(crate::specs::Messages::reply_at))]
fn reply_at(alloc: Global, cur: &mut Cur<'_>) -> Result<Reply, ReadRefusal>
    ensures { Gives (λ x. x) result cur.new (reply_at cur.old) }
{
    let tag = cur.u8()?;
    let reply = reply_behind_at(alloc, cur, tag)?;
    Ok(reply)
}

fn whole_reply(alloc: Global, bytes: &[u8]) -> Result<Reply, ReadRefusal>
    ensures { GivesAll (λ x. x) result (all_of reply_at bytes.now) }
{
    let mut cur = Cur::new(bytes);
    let reply = reply_at(alloc, &mut cur)?;
    if cur.left() != 0 {
        return Err(ReadRefusal::NotForm);
    }
    Ok(reply)
}

/// The reply that the bytes spell. The bytes of a tree and of lists in it are taken as they are, and copied once.
///
/// # Errors
/// `NotForm` exactly where they spell none, as where they are more than [`REPLY_BYTES_MAX`]; `NoMemory`.
pub fn read_reply(alloc: Global, bytes: &[u8]) -> Result<Reply, ReadRefusal>
    ensures found { IfOk result (λ reply. SpellsReply reply bytes.now) }
    ensures not_form { IsErrOf result ReadRefusal.NotForm → (reply : Reply) → SpellsReply reply bytes.now → ⊥ }
    ensures exact { GivesAll (λ x. x) result (reply_of bytes.now) }
{
    if bytes.len() > REPLY_BYTES_MAX {
        return Err(ReadRefusal::NotForm);
    }
    whole_reply(alloc, bytes)
}
