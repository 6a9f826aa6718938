//! Three users at one wall, whose requests the server answers one after another.
ghost use Rattle.std.specs.Prelude.{◌≡◌, length, IfOk, OnOk};
ghost use Rattle.std.specs.List.{All};
ghost use Rattle.hall_server.specs.Seating.{AreAll, IsSeatsOf};

use crate::walls::{Draft, empty, signed, user_signers};
use fr_bytes::{NoMemory, put_bytes, put_u32};
use fr_digest::{Dig, Digester, Sha};
use hall_core::{Answer, Called, Cause, Hall};
use hall_server::{Seats, Server};
use lms_tree::Signer;
use msg_form::causes::BAD_VIEW;
use msg_form::{Reply, read_reply};
use op_types::{View, write_op};
use signed_ops::view_copy;
use std::alloc::Global;
use std::process::Abort;
use std::sync::Wait;
use std::test::Fail;

const USERS: [u32; 3] = [1, 2, 3];

/// The owner's first post.
const FIRST: Draft = (1, 0, 0, 0, b"\0\0\0\0\x01a");

/// What is signed after it, with the bits that are flipped in the root of the first post's view: the owner admits user 2,
/// and posts under a view that isn't the wall's; the user posts, and the owner under the view.
const LATER: [(Draft, u8); 4] = [
    ((1, 1, 0, 0, b"\x01\0\0\0\x02\x02\x05\0"), 0),
    ((1, 2, 1, 1, b"\0\0\0\0\x01c"), 1),
    ((2, 0, 1, 0, b"\0\0\0\0\x01d"), 0),
    ((1, 2, 1, 1, b"\0\0\0\0\x01e"), 0),
];

/// Who sends, of what is signed what (else it looks), how large the wall is that the reply shows (none where it refuses the
/// view), and the wall's answer.
type Row = (usize, Option<usize>, Option<u64>, Answer);

const REFUSED: Answer = Answer::Refused {
    cause: Cause::BadView,
};

/// What is sent after the first post. The bent view is refused before and after another user's post, the same bytes.
const SENT: [Row; 8] = [
    (2, None, Some(1), Answer::Looked { size: 1 }),
    (0, Some(0), Some(2), Answer::Placed { position: 1 }),
    (0, Some(1), None, REFUSED),
    (1, Some(2), Some(3), Answer::Placed { position: 2 }),
    (2, None, Some(3), Answer::Looked { size: 3 }),
    (0, Some(1), None, REFUSED),
    (0, Some(3), Some(4), Answer::Placed { position: 3 }),
    (1, None, Some(4), Answer::Looked { size: 4 }),
];

// The roots of the first leaf and of all four, from an independent program.
const ROOTS: [(u64, &str); 2] = [
    (
        1,
        "6032bd60ef97c6558e8629de3a166ba2e8d4633927e29115765572eb61e66c23",
    ),
    (
        4,
        "3e438ea9e637d7683757c0fad659c2efe5db2b70cbd6d66c462a8446db0c1f3a",
    ),
];

/// A server of one wall without leaves, and the seats of the three users.
fn opened<D: Digester>(
    alloc: Global,
    signers: &[Signer],
) -> Result<(Server<D>, Vec<Seats<D>>), Fail>
    ensures seats { IfOk result (λ r. All (IsSeatsOf D.digest_of r.0) r.1.items) }
    ensures all { IfOk result (λ r. AreAll r.0 r.1.items) }
    ensures many { IfOk result (λ r. length r.1.items ≡ 3) }
{
    let (hall, _server) = empty::<D>(alloc, signers)?;
    let mut halls = Vec::new(alloc);
    halls.push(hall)?;
    Ok(Server::make(halls, USERS.as_slice())?)
}

// ---- requests

/// The root with these bits of its first byte flipped.
fn flipped(root: Dig, flip: u8) -> Dig {
    let mut root = root;
    root[0] ^= flip;
    root
}

fn bent(view: &View, flip: u8) -> Result<View, NoMemory> {
    let copy = view_copy(view)?;
    Ok(View {
        root: flipped(view.root, flip),
        ..copy
    })
}

/// The request of who has accepted nothing to append an operation, as the format gives it.
fn request(alloc: Global, op: &[u8]) -> Result<Vec<u8>, Fail> {
    let mut bytes = Vec::from_slice(alloc, b"\x02\0\0\0\x01\0\0\0\0\0\0\0\0".as_slice())?;
    put_u32(&mut bytes, u32::try_from(op.len())?)?;
    put_bytes(&mut bytes, op)?;
    Ok(bytes)
}

/// The request to append what its author signs.
fn append(
    alloc: Global,
    signers: &mut Vec<Signer>,
    views: &[View],
    draft: Draft,
) -> Result<Vec<u8>, Fail> {
    let op = signed(alloc, signers, views, draft)?;
    request(alloc, write_op(alloc, &op)?.as_slice())
}

/// The requests to append what comes after the first post, each signed once, in their order.
fn later(alloc: Global, signers: &mut Vec<Signer>, first: &View) -> Result<Vec<Vec<u8>>, Fail> {
    let mut requests = Vec::new(alloc);
    for (draft, flip) in LATER {
        let views = [bent(first, flip)?];
        requests.push(append(alloc, signers, views.as_slice(), draft)?)?;
    }
    Ok(requests)
}

/// What a user sends: one of the requests, or a look at the wall.
fn sends(requests: &[Vec<u8>], what: Option<usize>) -> Option<&[u8]> {
    match what {
        None => Some(b"\x01\0\0\0\x01\0\0\0\0\0\0\0\0\0".as_slice()),
        Some(place) => Some(requests.get(place)?.as_slice()),
    }
}

// ---- replies

/// The size of the wall that a reply shows, and none where it refuses a view.
fn told(reply: &Reply) -> Result<Option<u64>, Fail> {
    match reply {
        Reply::Show { view, .. } => Ok(Some(view.size)),
        Reply::Refused {
            wall: 1,
            cause: BAD_VIEW,
            number: 0,
        } => Ok(None),
        _ => Err("another reply".into()),
    }
}

/// What the server replies to the user at this place.
fn answered<D: Digester, R: Wait>(
    rt: &R,
    alloc: Global,
    server: &Server<D>,
    all: &mut [Seats<D>],
    place: usize,
    request: &[u8],
) -> Result<Reply, Fail>
    requires { All (IsSeatsOf D.digest_of server.now) all.old }
    ensures { OnOk result (All (IsSeatsOf D.digest_of server.now) all.new) }
{
    if place >= all.len() {
        return Err("no such user".into());
    }
    let bytes = server.answer(rt, &mut all[place], request)?;
    Ok(read_reply(alloc, bytes.as_slice())?)
}

/// The view that the reply to the first post shows.
fn first_view<D: Digester, R: Wait>(
    rt: &R,
    alloc: Global,
    server: &Server<D>,
    all: &mut [Seats<D>],
    signers: &mut Vec<Signer>,
) -> Result<View, Fail>
    requires { All (IsSeatsOf D.digest_of server.now) all.old }
    ensures { OnOk result (All (IsSeatsOf D.digest_of server.now) all.new) }
{
    let request = append(alloc, signers, &[], FIRST)?;
    match answered(rt, alloc, server, all, 0, &request)? {
        Reply::Show { view, .. } => Ok(view),
        _ => Err("the first post is refused".into()),
    }
}

/// Whether each reply tells what it should.
fn send_all<D: Digester, R: Wait + Abort>(
    rt: &R,
    alloc: Global,
    server: &Server<D>,
    all: &mut [Seats<D>],
    requests: &[Vec<u8>],
) -> Result<(), Fail>
    requires { All (IsSeatsOf D.digest_of server.now) all.old }
    ensures { OnOk result (All (IsSeatsOf D.digest_of server.now) all.new) }
{
    for (i, (place, what, size, _)) in SENT.iter().enumerate() {
        let Some(request) = sends(requests, *what) else {
            return Err("no such request".into());
        };
        let reply = answered(rt, alloc, server, all, *place, request)?;
        assert!(rt; told(&reply)? == *size, "request {i}");
    }
    Ok(())
}

/// The users send all of it.
fn play<D: Digester, R: Wait + Abort>(
    rt: &R,
    alloc: Global,
    server: &Server<D>,
    all: &mut [Seats<D>],
    signers: &mut Vec<Signer>,
) -> Result<(), Fail>
    requires { All (IsSeatsOf D.digest_of server.now) all.old }
    ensures { OnOk result (All (IsSeatsOf D.digest_of server.now) all.new) }
{
    let first = first_view(rt, alloc, server, all, signers)?;
    let requests = later(alloc, signers, &first)?;
    send_all(rt, alloc, server, all, &requests)
}

/// The halls, when all is sent.
fn played<D: Digester, R: Wait + Abort>(rt: &R, alloc: Global) -> Result<Vec<Hall<D>>, Fail> {
    let mut signers = user_signers(alloc, 5)?;
    let (server, mut all) = opened::<D>(alloc, &signers)?;
    play(rt, alloc, &server, all.as_mut_slice(), &mut signers)?;
    server.meet_all(&mut all)?;
    Ok(server.close(all)?)
}

// ---- entries

/// The call and the answer that stand in the place of a row: those of the first post, and then the rows'.
fn entry(place: usize) -> Option<(u32, Answer)> {
    if place == 0 {
        return Some((1, Answer::Placed { position: 0 }));
    }
    let (user, _, _, answer) = SENT.get(place - 1)?;
    Some((*USERS.get(*user)?, *answer))
}

fn call(called: &Called) -> (u32, Answer) {
    (called.caller, called.answer)
}

/// Whether the hall has these entries, in this order, and no other.
fn has_entries<D: Digester>(hall: &Hall<D>) -> bool {
    for place in 0..SENT.len() + 2 {
        if hall.entry(place as u64).map(call) != entry(place) {
            return false;
        }
    }
    true
}

/// Whether the wall's versions have these roots.
fn has_roots<D: Digester>(alloc: Global, hall: &Hall<D>) -> Result<bool, Fail> {
    let snapshot = hall.seen()?;
    for (size, root) in ROOTS {
        if snapshot.size() < size || size == 0 {
            return Ok(false);
        }
        let found = hex::encode(alloc, snapshot.history().root_at(size))?;
        if found.as_str() != root {
            return Ok(false);
        }
    }
    Ok(true)
}

#[test]
fn three_users_entries_come_back_in_order(rt: HostRuntime) -> Result<(), Fail> {
    let mut halls = played::<Sha, HostRuntime>(&rt, rt.alloc())?;
    let Some(hall) = halls.pop() else {
        return Err("no hall came back".into());
    };
    assert!(rt; has_entries(&hall));
    assert!(rt; has_roots(rt.alloc(), &hall)?);
    Ok(())
}
