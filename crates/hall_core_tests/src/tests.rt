ghost use Rattle.std.specs.Prelude.{◌≡◌, IfOk};
ghost use Rattle.lms_params.specs.Parameters.{IsListed};

use fr_bytes::{Bytes, Sequence, put_bytes, put_u32, put_u64};
use fr_digest::{Sha, Short};
use hall_core::{Answer, Ask, Called, Cause, Hall, Slip, Snapshot, laws};
use lms_params::{Pair, pair_of};
use lms_tree::{PublicKey, Signer};
use op_types::{View, read_op, write_op};
use signed_ops::{is_view_signed, sign_op};
use std::alloc::Global;
use std::process::Abort;
use std::test::Fail;

// ---- a wall of user 1

fn pair_by(lms: u32) -> Result<Pair, Fail>
    ensures { IfOk result IsListed }
{
    match pair_of(lms, 1) {
        Some(pair) => Ok(pair),
        None => Err("no pair of the tables".into()),
    }
}

/// The signers of the users 1 and 2.
fn user_signers(alloc: Global) -> Result<Vec<Signer>, Fail> {
    let mut signers = Vec::new(alloc);
    for (user, id) in [(1, 0x41), (2, 0x42)] {
        signers.push(Signer::make(alloc, &[user; 32], &[id; 16], pair_by(5)?)?)?;
    }
    Ok(signers)
}

fn server_signer(alloc: Global) -> Result<Signer, Fail>
    ensures tall { IfOk result (λ signer. signer.pair.lms.h ≡ 10) }
    ensures fresh { IfOk result (λ signer. signer.used ≡ 0) }
{
    let pair = pair_by(6)?;
    if pair.lms.h != 10 {
        return Err("another height".into());
    }
    Ok(Signer::make(alloc, &[9; 32], &[0x49; 16], pair)?)
}

fn hall_of(alloc: Global, signers: &[Signer], server: Signer) -> Result<Hall<Sha>, Fail>
    requires tall { server.pair.lms.h ≡ 10 }
    requires fresh { server.used ≡ 0 }
{
    let mut keys = Vec::new(alloc);
    for (user, signer) in [1, 2].iter().zip(signers) {
        keys.push((*user, signer.public()))?;
    }
    Ok(Hall::make(alloc, 1, 1, 0, server, Sequence::of(keys))?)
}

// ---- calls

/// What an operation embeds: nothing, or the view of the first leaf with these bits of its root flipped.
#[derive(Clone, Copy)]
enum Embeds {
    Nothing,
    First(u8),
}

/// An operation: its author, its number, the epoch, what it embeds, and its kind.
type Draft = (u8, u8, u8, Embeds, &'static [u8]);

const FIRST: Draft = (1, 0, 0, Embeds::Nothing, b"\0\0\0\0\x01a");

/// Admits user 2 as a writer.
const ADMIT: Draft = (1, 1, 0, Embeds::Nothing, b"\x01\0\0\0\x02\x02\x05\0");

const FLIPPED: Draft = (1, 2, 1, Embeds::First(1), b"\0\0\0\0\x01c");

const OTHER: Draft = (2, 0, 1, Embeds::Nothing, b"\0\0\0\0\x01d");

const SEEN: Draft = (1, 2, 1, Embeds::First(0), b"\0\0\0\0\x01e");

/// The root with its first byte changed.
fn flipped(root: [u8; 32], flip: u8) -> [u8; 32] {
    let mut root = root;
    root[0] ^= flip;
    root
}

fn put_embedded(out: &mut Vec<u8>, view: &View, flip: u8) -> Result<(), Fail> {
    put_u64(out, view.size)?;
    put_bytes(out, &flipped(view.root, flip))?;
    put_u32(out, u32::try_from(view.sig.len())?)?;
    put_bytes(out, view.sig.as_slice())?;
    Ok(())
}

/// An operation of wall 1 up to its view.
fn put_head(out: &mut Vec<u8>, author: u8, seq: u8, epoch: u8) -> Result<(), Fail> {
    put_bytes(out, &[0, 0, 0, 1, 0, 0, 0, author, 0, 0, 0, seq])?;
    put_u64(out, u64::from(epoch))?;
    Ok(())
}

/// The bytes of an operation of wall 1 that nobody signed.
fn unsigned_bytes(alloc: Global, draft: Draft, view: &View) -> Result<Vec<u8>, Fail> {
    let (author, seq, epoch, embeds, kind) = draft;
    let mut bytes = Vec::new(alloc);
    put_head(&mut bytes, author, seq, epoch)?;
    match embeds {
        Embeds::Nothing => put_u64(&mut bytes, 0)?,
        Embeds::First(flip) => put_embedded(&mut bytes, view, flip)?,
    }
    put_bytes(&mut bytes, kind)?;
    put_u32(&mut bytes, 0)?;
    Ok(bytes)
}

/// The bytes of the operation that its author signed.
fn signed_bytes(
    alloc: Global,
    draft: Draft,
    view: &View,
    signers: &mut Vec<Signer>,
) -> Result<Bytes, Fail> {
    let unsigned = read_op(alloc, &unsigned_bytes(alloc, draft, view)?)?;
    let place = usize::from(draft.0).saturating_sub(1);
    let Some(signer) = signers.get_mut(place) else {
        return Err("no such signer".into());
    };
    let signed = sign_op(alloc, signer, unsigned)?;
    Ok(write_op(alloc, &signed)?)
}

fn slip_of(alloc: Global, caller: u8, bytes: &[u8]) -> Result<Slip, Fail> {
    let op = read_op(alloc, bytes)?;
    match Slip::new(alloc, u32::from(caller), Ask::Append { op }) {
        Ok(slip) => Ok(slip),
        Err((refused, ask)) => {
            drop(ask);
            Err(refused.into())
        }
    }
}

fn append(alloc: Global, hall: &mut Hall<Sha>, caller: u8, bytes: &[u8]) -> Result<Answer, Fail> {
    Ok(hall.step(slip_of(alloc, caller, bytes)?))
}

/// The operations that come after the first.
const LATER: [Draft; 4] = [ADMIT, FLIPPED, OTHER, SEEN];

/// Which of them are sent, by whom, and the answers: the one whose view is flipped is sent twice, the same bytes.
const SENT: [(usize, u8, Answer); 5] = [
    (0, 1, Answer::Placed { position: 1 }),
    (1, 1, BAD_VIEW),
    (2, 2, Answer::Placed { position: 2 }),
    (1, 1, BAD_VIEW),
    (3, 1, Answer::Placed { position: 3 }),
];

const BAD_VIEW: Answer = Answer::Refused {
    cause: Cause::BadView,
};

/// The bytes of the operations that come after the first, each signed once.
fn later_bytes(alloc: Global, view: &View, signers: &mut Vec<Signer>) -> Result<Vec<Bytes>, Fail> {
    let mut later = Vec::new(alloc);
    for draft in &LATER {
        later.push(signed_bytes(alloc, *draft, view, signers)?)?;
    }
    Ok(later)
}

/// Appends the first operation, and gives the wall as it is then.
fn first_seen(
    alloc: Global,
    hall: &mut Hall<Sha>,
    signers: &mut Vec<Signer>,
) -> Result<Snapshot<Sha>, Fail> {
    let empty = hall.seen()?;
    let bytes = signed_bytes(alloc, FIRST, empty.view(), signers)?;
    append(alloc, hall, 1, bytes.as_slice())?;
    Ok(hall.seen()?)
}

fn root_text(alloc: Global, snapshot: &Snapshot<Sha>) -> Result<String, Fail> {
    let size = snapshot.size();
    if size == 0 {
        return Ok(String::new(alloc));
    }
    Ok(hex::encode(alloc, snapshot.history().root_at(size))?)
}

// The roots of the first leaf and of all four, from an independent program.
const ROOT_1: &str = "6032bd60ef97c6558e8629de3a166ba2e8d4633927e29115765572eb61e66c23";

const ROOT_4: &str = "3e438ea9e637d7683757c0fad659c2efe5db2b70cbd6d66c462a8446db0c1f3a";

/// Whether the snapshot has this root, and a view of it that the server signed.
fn shows(
    alloc: Global,
    key: &PublicKey,
    snapshot: &Snapshot<Sha>,
    size: u64,
    root: &str,
) -> Result<bool, Fail> {
    let view = snapshot.view();
    let same = root_text(alloc, snapshot)?.as_str() == root;
    let view_root = hex::encode(alloc, view.root)?;
    Ok(same && view.size == size && view_root.as_str() == root && is_view_signed(key, view))
}

fn is_entry(entry: Option<&Called>, caller: u8, answer: Answer) -> bool {
    match entry {
        None => false,
        Some(called) => called.caller == u32::from(caller) && called.answer == answer,
    }
}

/// Sends one of the operations, and tells whether this is the answer and the entry.
fn is_answered(
    alloc: Global,
    hall: &mut Hall<Sha>,
    later: &[Bytes],
    sent: (usize, u8, Answer),
    place: u64,
) -> Result<bool, Fail> {
    let (which, caller, want) = sent;
    let Some(bytes) = later.get(which) else {
        return Ok(false);
    };
    let answer = append(alloc, hall, caller, bytes.as_slice())?;
    Ok(answer == want && is_entry(hall.entry(place), caller, want))
}

/// A wall without leaves, the signers of its users, and the server's key.
fn opened(alloc: Global) -> Result<(Hall<Sha>, Vec<Signer>, PublicKey), Fail> {
    let signers = user_signers(alloc)?;
    let server = server_signer(alloc)?;
    let key = server.public();
    let hall = hall_of(alloc, &signers, server)?;
    Ok((hall, signers, key))
}

fn send_later(
    rt: &impl Abort,
    alloc: Global,
    hall: &mut Hall<Sha>,
    later: &[Bytes],
) -> Result<(), Fail> {
    for (i, sent) in SENT.iter().enumerate() {
        assert!(rt;
            is_answered(alloc, hall, later, *sent, i as u64 + 1)?,
            "call {i}"
        );
    }
    Ok(())
}

/// The wall after the first operation, when the others were sent.
fn seen_first(
    rt: &impl Abort,
    alloc: Global,
    hall: &mut Hall<Sha>,
    signers: &mut Vec<Signer>,
) -> Result<Snapshot<Sha>, Fail> {
    let first = first_seen(alloc, hall, signers)?;
    let later = later_bytes(alloc, first.view(), signers)?;
    send_later(rt, alloc, hall, &later)?;
    Ok(first)
}

#[test]
fn a_view_that_is_not_of_the_wall_is_refused_each_time(rt: HostRuntime) -> Result<(), Fail> {
    let (mut hall, mut signers, key) = opened(rt.alloc())?;
    let first = seen_first(&rt, rt.alloc(), &mut hall, &mut signers)?;
    assert!(rt; shows(rt.alloc(), &key, &first.share()?, 1, ROOT_1)?);
    assert!(rt; shows(rt.alloc(), &key, &hall.seen()?, 4, ROOT_4)?);
    Ok(())
}

#[test]
fn laws_hold_at_both_digests() {
    laws::plays::<Sha>();
    laws::turns::<Sha>();
    laws::growth::<Short>();
    laws::honesty::<Short>();
}
