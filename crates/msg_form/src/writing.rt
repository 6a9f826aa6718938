ghost use Rattle.std.specs.Prelude.{◌≡◌, ◌<◌, ◌^◌, ◌++◌, ◌∷◌, IfOk, OnOk};
ghost use Rattle.std.specs.List.{AllByRecursion, flat_map};
ghost use Rattle.fr_bytes.specs.Bytes.{counted};
ghost use Rattle.fr_bytes.specs.Parts.{counted_bytes};
ghost use Rattle.msg_form.specs.Formats.{flag, shown};
ghost use Rattle.msg_form.specs.Messages.{HasParts, IsReply, IsRequest, reply_text, request_text};

use crate::message::{Reply, Request};
use crate::tags::{APPEND_TAG, KEY_OPS_TAG, KEYS_TAG, LOOK_TAG, REFUSED_TAG, SHOW_TAG};
use fr_bytes::{Bytes, NoMemory, Texts, put_counted, put_u8, put_u32, put_u64};
use op_types::put_view;
use std::alloc::Global;

/// A byte that is 0 or 1.
fn put_flag(out: &mut Vec<u8>, is_set: bool) -> Result<(), NoMemory>
    ensures { OnOk result (out.new.items ≡ out.old.items ++ flag.text is_set) }
{
    if is_set {
        put_u8(out, 1)
    } else {
        put_u8(out, 0)
    }
}

/// Lists, each behind its length.
fn put_texts(out: &mut Vec<u8>, texts: &Texts) -> Result<(), NoMemory>
    requires { AllByRecursion counted_bytes.fits texts.now }
    ensures { OnOk result (out.new.items ≡ out.old.items ++ flat_map counted texts.now) }
{
    for text in texts.as_slice() {
        put_counted(out, text.as_slice())?;
    }
    Ok(())
}

/// The tree and the lists of so many positions, and nothing for none.
fn put_shown(out: &mut Vec<u8>, tree: &Bytes, dicts: &Texts, count: u64) -> Result<(), NoMemory>
    requires { (shown count).fits (tree.now, dicts.now) }
    ensures { OnOk result (out.new.items ≡ out.old.items ++ (shown count).text (tree.now, dicts.now)) }
{
    if count == 0 {
        return Ok(());
    }
    put_counted(out, tree.as_slice())?;
    put_texts(out, dicts)
}

fn put_request(out: &mut Vec<u8>, request: &Request) -> Result<(), NoMemory>
    requires { IsRequest request.now }
    ensures { OnOk result (out.new.items ≡ out.old.items ++ request_text request.now) }
{
    match request {
        Request::Look { wall, have, whole } => {
            put_u8(out, LOOK_TAG)?;
            put_u32(out, *wall)?;
            put_u64(out, *have)?;
            put_flag(out, *whole)?;
        }
        Request::Append { wall, have, op } => {
            put_u8(out, APPEND_TAG)?;
            put_u32(out, *wall)?;
            put_u64(out, *have)?;
            put_counted(out, op.as_slice())?;
        }
        Request::Keys { wall, size } => {
            put_u8(out, KEYS_TAG)?;
            put_u32(out, *wall)?;
            put_u64(out, *size)?;
        }
    }
    Ok(())
}

/// The bytes that spell the request.
pub fn write_request(alloc: Global, request: &Request) -> Result<Bytes, NoMemory>
    requires { IsRequest request.now }
    ensures { IfOk result (λ bytes. bytes ≡ request_text request.now) }
{
    let mut out = Vec::new(alloc);
    put_request(&mut out, request)?;
    Ok(Bytes::of(out))
}

fn put_reply(out: &mut Vec<u8>, reply: &Reply) -> Result<(), NoMemory>
    requires { HasParts reply.now }
    ensures { OnOk result (out.new.items ≡ out.old.items ++ reply_text reply.now) }
{
    match reply {
        Reply::Show {
            view,
            from,
            tree,
            dicts,
        } => {
            put_u8(out, SHOW_TAG)?;
            put_u32(out, view.wall)?;
            put_view(out, view)?;
            put_u64(out, *from)?;
            put_shown(out, tree, dicts, view.size - *from)?;
        }
        Reply::Refused {
            wall,
            cause,
            number,
        } => {
            put_u8(out, REFUSED_TAG)?;
            put_u32(out, *wall)?;
            put_u8(out, *cause)?;
            put_u64(out, *number)?;
        }
        Reply::KeyOps { wall, size, tree } => {
            put_u8(out, KEY_OPS_TAG)?;
            put_u32(out, *wall)?;
            put_u64(out, *size)?;
            put_counted(out, tree.as_slice())?;
        }
    }
    Ok(())
}

/// The bytes that spell the reply.
pub fn write_reply(alloc: Global, reply: &Reply) -> Result<Bytes, NoMemory>
    requires { IsReply reply.now }
    ensures { IfOk result (λ bytes. bytes ≡ reply_text reply.now) }
{
    let mut out = Vec::new(alloc);
    put_reply(&mut out, reply)?;
    Ok(Bytes::of(out))
}
