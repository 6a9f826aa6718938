use anyhow::Result;
use op_types::{Kind, Op, Wrap};
use std::alloc::{AllocError, Global};
use std::string::String;

/// Bytes in hexadecimal digits, and `-` for none.
fn digits(alloc: Global, bytes: &[u8]) -> Result<String, AllocError> {
    if bytes.is_empty() {
        return String::from_str(alloc, "-");
    }
    hex::encode(alloc, bytes)
}

fn wrap_word(alloc: Global, wrap: &Wrap) -> Result<String> {
    let body = digits(alloc, &wrap.body)?;
    Ok(format!(in alloc; "{}:{}:{}", wrap.child, wrap.child_gen, body)?)
}

// Wraps with commas between them, and `-` for none.
fn wraps_word(alloc: Global, wraps: &[Wrap]) -> Result<String> {
    if wraps.is_empty() {
        return Ok(String::from_str(alloc, "-")?);
    }
    let mut word = String::new(alloc);
    for wrap in wraps {
        if !word.is_empty() {
            word.push(',')?;
        }
        let one = wrap_word(alloc, wrap)?;
        word.push_str(one.as_str())?;
    }
    Ok(word)
}

fn kind_words(alloc: Global, kind: &Kind) -> Result<String> {
    match kind {
        Kind::Post { body } => {
            let body = digits(alloc, body.as_slice())?;
            Ok(format!(in alloc; "post {body}")?)
        }
        Kind::Admit {
            user,
            role,
            slot,
            wraps,
        } => {
            let wraps = wraps_word(alloc, wraps.as_slice())?;
            Ok(format!(in alloc; "admit {user} {role} {slot} {wraps}")?)
        }
        Kind::Remove { user, slot, wraps } => {
            let wraps = wraps_word(alloc, wraps.as_slice())?;
            Ok(format!(in alloc; "remove {user} {slot} {wraps}")?)
        }
    }
}

fn view_words(alloc: Global, op: &Op) -> Result<String> {
    let root = digits(alloc, &op.view.root)?;
    let sig = digits(alloc, op.view.sig.as_slice())?;
    Ok(format!(in alloc; "{} {} {} {}", op.view.wall, op.view.size, root, sig)?)
}

/// The fields of an operation as a line has them: wall, author, number, epoch, the view's wall, size, root
/// and signature, the kind with its own fields, and the signature.
pub fn fields(alloc: Global, op: &Op) -> Result<String> {
    let view = view_words(alloc, op)?;
    let kind = kind_words(alloc, &op.kind)?;
    let sig = digits(alloc, op.sig.as_slice())?;
    let who = format!(in alloc; "{} {} {} {}", op.wall, op.author, op.seq, op.epoch)?;
    Ok(format!(in alloc; "{who} {view} {kind} {sig}")?)
}
