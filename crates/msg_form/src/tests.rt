use super::*;
use fr_bytes::ReadRefusal;
use std::alloc::Global;
use std::test::Fail;

/// Whether the bytes spell a request, which is then spelled by them alone.
fn is_request(alloc: Global, digits: &str) -> Result<bool, Fail> {
    let bytes = hex::decode(alloc, digits)?;
    match read_request(alloc, &bytes) {
        Ok(request) => Ok(write_request(alloc, &request)?.as_slice() == bytes.as_slice()),
        Err(ReadRefusal::NotForm) => Ok(false),
        Err(ReadRefusal::NoMemory) => Err("no memory".into()),
    }
}

/// The same of replies.
fn is_reply(alloc: Global, digits: &str) -> Result<bool, Fail> {
    let bytes = hex::decode(alloc, digits)?;
    match read_reply(alloc, &bytes) {
        Ok(reply) => Ok(write_reply(alloc, &reply)?.as_slice() == bytes.as_slice()),
        Err(ReadRefusal::NotForm) => Ok(false),
        Err(ReadRefusal::NoMemory) => Err("no memory".into()),
    }
}

/// A reply that shows a tree of so many bytes.
fn key_ops_of(alloc: Global, tree: u32) -> Result<Vec<u8>, Fail> {
    let mut bytes = b"\x13\0\0\0\x01\0\0\0\0\0\0\0\x01".to_vec(alloc)?;
    bytes.extend_from_slice(&tree.to_be_bytes())?;
    bytes.resize(bytes.len().wrapping_add(tree as usize), 0)?;
    Ok(bytes)
}

/// Requests and no requests, in hexadecimal digits.
const REQUESTS: &[(&str, bool)] = &[
    ("0100000001000000000000000000", true),
    ("01ffffffffffffffffffffffff01", true),
    ("0200000003000000000000000900000000", true),
    ("02000000030000000000000009000000020001", true),
    ("03000000070000000000000000", true),
    ("03000000078000000000000000", true),
    ("00", false),
    ("04", false),
    ("0100000001000000000000000002", false),
];

#[test]
fn requests_are_read_and_written(rt: HostRuntime) -> Result<(), Fail> {
    let alloc = rt.alloc();
    for (digits, want) in REQUESTS {
        assert_eq!(rt; (digits, is_request(alloc, digits)?), (digits, *want));
    }
    Ok(())
}

/// Replies and no replies.
const REPLIES: &[(&str, bool)] = &[
    (
        "11000000050000000000000003ded87c78902dec3bb2da20a3ccee959572e3a839d0ac0e9b30a282f9c0f2534000000003d88ace000000000000000100000002f6a200000003945c9400000002d421",
        true,
    ),
    ("110000000500000000000000000000000000000000", true),
    ("120000000203000000000000004d", true),
    ("120000000204000000000000004d", true),
    ("13000000020000000000000001000000026162", true),
    ("1200000001000000000000000000", false),
    ("12000000010b0000000000000000", false),
    ("1200000001010000000000000001", false),
    ("1200000001090000000000000001", false),
    ("1300000001000000000000000000000000", false),
    ("1300000001000000000000040100000000", false),
    ("110000000100000000000000000000000000000001", false),
    ("11000000010000000000000000000000000000000000", false),
];

#[test]
fn replies_are_read_and_written(rt: HostRuntime) -> Result<(), Fail> {
    let alloc = rt.alloc();
    for (digits, want) in REPLIES {
        assert_eq!(rt; (digits, is_reply(alloc, digits)?), (digits, *want));
    }
    Ok(())
}

#[test]
fn longer_replies_are_none(rt: HostRuntime) -> Result<(), Fail> {
    let alloc = rt.alloc();
    // The tree of a reply of the greatest length, and of one of a byte more.
    for (tree, want) in [(33_554_415, true), (33_554_416, false)] {
        let reply = key_ops_of(alloc, tree)?;
        assert_eq!(rt; (tree, read_reply(alloc, &reply).is_ok()), (tree, want));
    }
    Ok(())
}

#[test]
fn laws_are_called() {
    laws::one_spelling_of_requests();
    laws::one_spelling_of_replies();
    laws::replies();
}
