use fr_bytes::{Bytes, Sequence, Texts};
use fr_digest::Dig;
use msg_form::{Reply, Request};
use op_types::View;
use serde_json::Value;
use std::alloc::Global;
use vector_cases::{
    CaseFault, byte_at, bytes_at, bytes_of, dig_at, flag_at, list_at, number_at, small_at, word_at,
};

fn look(case: &Value) -> Result<Request, CaseFault> {
    Ok(Request::Look {
        wall: small_at(case, "wall")?,
        have: number_at(case, "have")?,
        whole: flag_at(case, "whole")?,
    })
}

fn append(alloc: Global, case: &Value) -> Result<Request, CaseFault> {
    Ok(Request::Append {
        wall: small_at(case, "wall")?,
        have: number_at(case, "have")?,
        op: Bytes::of(bytes_at(alloc, case, "op")?),
    })
}

fn keys(case: &Value) -> Result<Request, CaseFault> {
    Ok(Request::Keys {
        wall: small_at(case, "wall")?,
        size: number_at(case, "size")?,
    })
}

/// The request of a case's fields.
pub fn request_of(alloc: Global, case: &Value) -> Result<Request, CaseFault> {
    match word_at(case, "request")? {
        "look" => look(case),
        "append" => append(alloc, case),
        "keys" => keys(case),
        _ => Err(CaseFault::NoValue("the name of a request")),
    }
}

// A view of size 0 has no root and no signature, and a reply to it neither tree nor lists.

fn bytes_or_none(alloc: Global, case: &Value, name: &'static str) -> Result<Bytes, CaseFault> {
    if case.get(name).is_none() {
        return Ok(Bytes::of(Vec::new(alloc)));
    }
    Ok(Bytes::of(bytes_at(alloc, case, name)?))
}

fn root(case: &Value) -> Result<Dig, CaseFault> {
    if case.get("root").is_none() {
        return Ok([0; 32]);
    }
    dig_at(case, "root")
}

fn view(alloc: Global, case: &Value) -> Result<View, CaseFault> {
    Ok(View {
        wall: small_at(case, "wall")?,
        size: number_at(case, "size")?,
        root: root(case)?,
        sig: bytes_or_none(alloc, case, "sig")?,
    })
}

fn texts_of(alloc: Global, lists: &[Value]) -> Result<Texts, CaseFault> {
    let mut all = Vec::new(alloc);
    for list in lists {
        all.push(Bytes::of(bytes_of(alloc, list)?))?;
    }
    Ok(Sequence::of(all))
}

fn lists(alloc: Global, case: &Value) -> Result<Texts, CaseFault> {
    if case.get("lists").is_none() {
        return Ok(Sequence::of(Vec::new(alloc)));
    }
    texts_of(alloc, list_at(case, "lists")?)
}

fn show(alloc: Global, case: &Value) -> Result<Reply, CaseFault> {
    let from = number_at(case, "from")?;
    let view = view(alloc, case)?;
    let tree = bytes_or_none(alloc, case, "tree")?;
    let dicts = lists(alloc, case)?;
    Ok(Reply::Show {
        view,
        from,
        tree,
        dicts,
    })
}

fn refused(case: &Value) -> Result<Reply, CaseFault> {
    Ok(Reply::Refused {
        wall: small_at(case, "wall")?,
        cause: byte_at(case, "cause")?,
        number: number_at(case, "number")?,
    })
}

fn key_ops(alloc: Global, case: &Value) -> Result<Reply, CaseFault> {
    Ok(Reply::KeyOps {
        wall: small_at(case, "wall")?,
        size: number_at(case, "size")?,
        tree: Bytes::of(bytes_at(alloc, case, "tree")?),
    })
}

/// The reply of a case's fields.
pub fn reply_of(alloc: Global, case: &Value) -> Result<Reply, CaseFault> {
    match word_at(case, "reply")? {
        "show" => show(alloc, case),
        "refused" => refused(case),
        "key_ops" => key_ops(alloc, case),
        _ => Err(CaseFault::NoValue("the name of a reply")),
    }
}
