ghost use Rattle.std.specs.Prelude.{◌<◌, IfOk};
ghost use Rattle.lms_params.specs.Parameters.{IsListed};
ghost use Rattle.op_types.specs.Spelling.{IsOp};

use super::*;
use fr_bytes::Sequence;
use lms_params::{Pair, pair_of};
use lms_tree::{SignRefusal, Signer, UserKeys};
use op_types::{Op, View, read_op, view_message};
use std::alloc::{AllocError, Global};
use std::test::Fail;

/// Posts the text "a" or "b".
const POST_A: &[u8] = b"\0\0\0\0\x01a";

const POST_B: &[u8] = b"\0\0\0\0\x01b";

fn pair() -> Result<Pair, Fail>
    ensures { IfOk result IsListed }
{
    match pair_of(5, 3) {
        Some(pair) => Ok(pair),
        None => Err("no pair of the tables".into()),
    }
}

fn signer_of(alloc: Global, user: u8) -> Result<Signer, Fail>
    requires { user < 16 }
{
    Ok(Signer::make(alloc, &[user; 32], &[0x40 + user; 16], pair()?)?)
}

/// The signers of the users 1, 2 and 3.
fn three_signers(alloc: Global) -> Result<Vec<Signer>, Fail> {
    let mut signers = Vec::new(alloc);
    for user in 1..4 {
        signers.push(signer_of(alloc, user)?)?;
    }
    Ok(signers)
}

/// These users, each with the key of the signer in its place.
fn listed(alloc: Global, users: &[u32], signers: &[Signer]) -> Result<UserKeys, AllocError> {
    let mut keys = Vec::new(alloc);
    for (user, signer) in users.iter().zip(signers) {
        keys.push((*user, signer.public()))?;
    }
    Ok(Sequence::of(keys))
}

/// An operation of wall 1, at number 0 and epoch 0, that nobody signed.
fn unsigned(alloc: Global, author: u8, kind: &[u8]) -> Result<Op, Fail>
    ensures { IfOk result IsOp }
{
    let mut bytes = Vec::new(alloc);
    bytes.extend_from_slice(&[0, 0, 0, 1, 0, 0, 0, author, 0, 0, 0, 0])?;
    bytes.extend_from_slice(&[0; 8])?;
    bytes.extend_from_slice(&[0; 8])?;
    bytes.extend_from_slice(kind)?;
    bytes.extend_from_slice(&[0; 4])?;
    Ok(read_op(alloc, &bytes)?)
}

/// What another operation does, under this one's signature.
fn doing_as(signed: Op, other: Op) -> Op
    requires signed { IsOp signed }
    requires other { IsOp other }
    ensures { IsOp result }
{
    Op {
        kind: other.kind,
        ..signed
    }
}

/// Whether a post of that author, signed by this signer, is tested as signed.
fn is_signed_by(
    alloc: Global,
    keys: &UserKeys,
    author: u8,
    signer: &mut Signer,
) -> Result<bool, Fail> {
    let signed = sign_op(alloc, signer, unsigned(alloc, author, POST_A)?)?;
    Ok(is_author_signed(alloc, keys, &signed)?)
}

/// Whether an operation of user 1 is tested as signed, that does this under the signature of a post "a".
fn is_signed_doing(
    alloc: Global,
    keys: &UserKeys,
    kind: &[u8],
    signer: &mut Signer,
) -> Result<bool, Fail> {
    let signed = sign_op(alloc, signer, unsigned(alloc, 1, POST_A)?)?;
    let changed = doing_as(signed, unsigned(alloc, 1, kind)?);
    Ok(is_author_signed(alloc, keys, &changed)?)
}

/// The author, the place of the signer, and whether its signature counts where the users 1 and 2 are listed.
const SIGNATURES: &[(u8, usize, bool)] = &[
    (1, 0, true),
    (2, 1, true),
    (3, 2, false),
    (2, 0, false),
    (1, 1, false),
];

#[test]
fn signatures_are_tested_under_the_authors_listed_key(rt: HostRuntime) -> Result<(), Fail> {
    let alloc = rt.alloc();
    let mut signers = three_signers(alloc)?;
    let keys = listed(alloc, &[1, 2], &signers)?;
    for (author, place, want) in SIGNATURES {
        if let Some(signer) = signers.get_mut(*place) {
            assert_eq!(rt;
                (author, place, is_signed_by(alloc, &keys, *author, signer)?),
                (author, place, *want)
            );
        }
    }
    Ok(())
}

#[test]
fn a_signature_is_of_what_was_signed(rt: HostRuntime) -> Result<(), Fail> {
    let alloc = rt.alloc();
    let mut signer = signer_of(alloc, 1)?;
    let mut keys = Vec::new(alloc);
    keys.push((1, signer.public()))?;
    let keys = Sequence::of(keys);
    for (kind, want) in [(POST_A, true), (POST_B, false)] {
        assert_eq!(rt; is_signed_doing(alloc, &keys, kind, &mut signer)?, want);
    }
    assert!(rt; !is_author_signed(alloc, &keys, &unsigned(alloc, 1, POST_A)?)?);
    Ok(())
}

/// A view of wall 1 that covers this many operations, under the signature of one that covers 1.
fn signed_view(signer: &mut Signer, size: u64) -> Result<View, Fail> {
    let root = [7; 32];
    let sig = signer.sign(&view_message(1, 1, &root))?;
    Ok(View {
        wall: 1,
        size,
        root,
        sig,
    })
}

#[test]
fn a_view_is_signed_under_its_servers_key(rt: HostRuntime) -> Result<(), Fail> {
    let alloc = rt.alloc();
    let mut server = signer_of(alloc, 1)?;
    let key = server.public();
    for (size, want) in [(0, false), (1, true), (2, false)] {
        let view = signed_view(&mut server, size)?;
        assert_eq!(rt; (size, is_view_signed(&key, &view)), (size, want));
    }
    Ok(())
}

#[test]
fn a_signer_is_spent_after_its_leaves(rt: HostRuntime) -> Result<(), Fail> {
    let alloc = rt.alloc();
    let mut signer = signer_of(alloc, 1)?;
    for _ in 0..32 {
        sign_op(alloc, &mut signer, unsigned(alloc, 1, POST_A)?)?;
    }
    let refusal = sign_op(alloc, &mut signer, unsigned(alloc, 1, POST_A)?).err();
    assert_eq!(rt; (refusal, signer.left()), (Some(SignRefusal::Spent), 0));
    Ok(())
}

#[test]
fn keys_are_found_by_user(rt: HostRuntime) -> Result<(), Fail> {
    let alloc = rt.alloc();
    let signers = three_signers(alloc)?;
    let keys = listed(alloc, &[1, 4], &signers)?;
    for (user, place) in [(0, None), (1, Some(0)), (2, None), (4, Some(1)), (5, None)] {
        let want = place
            .and_then(|place: usize| signers.get(place))
            .map(|signer| signer.public());
        assert_eq!(rt; (user, key_of(&keys, user)), (user, want));
    }
    Ok(())
}

#[test]
fn laws_are_called() {
    laws::signatures();
}
