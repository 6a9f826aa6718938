//! The reply to a request whose turn was made, of the snapshot after it. No lock is taken, and nothing waits.
ghost use Rattle.hall_core.specs.declared.facts.WallFacts.{WallFacts};
ghost use Rattle.hall_core.specs.Honest.{IsHonest};
ghost use Rattle.hall_core.specs.Snapshots.{Stands};
ghost use Rattle.hall_replies.specs.Kept.{IsOfHonest};
ghost use Rattle.hall_server.specs.HonestReplies.{Replies, Shows, ShowsKeys, wall_in};
ghost use Rattle.op_types.specs.declared.op.Leaf.{Leaf};
ghost use Rattle.std.specs.Prelude.{◌≡◌, List, IfOk};

use crate::refusing::{refuse, refuse_for};
use fr_bytes::{Bytes, NoMemory};
use fr_digest::Digester;
use hall_core::{Answer, Snapshot};
use hall_replies::{show, show_keys};
use msg_form::{Request, causes};
use std::alloc::Global;

/// The wall that is asked for.
pub(crate) fn wall_in(request: &Request) -> u32
    ensures { result ≡ wall_in request.now }
{
    match request {
        Request::Look { wall, .. } | Request::Append { wall, .. } | Request::Keys { wall, .. } =>
            *wall,
    }
}

/// The bytes that show the changes of the access list among the first `size` leaves, or that there are none such.
fn keys<D: Digester>(alloc: Global, snapshot: &Snapshot<D>, size: u64) -> Result<Bytes, NoMemory>
    requires honest { IsOfHonest D.digest_of snapshot.now }
    ensures { (facts : WallFacts) (L : List Leaf) → Stands D.digest_of facts L snapshot.now → IsHonest D.digest_of facts L
        → IfOk result (ShowsKeys D.digest_of facts.wall L size) }
{
    if size == 0 || snapshot.size() < size {
        return refuse(alloc, snapshot.view().wall, causes::BAD_REQUEST, 0);
    }
    show_keys(alloc, snapshot, size)
}

/// The bytes that show the wall as the request asks.
fn shown<D: Digester>(
    alloc: Global,
    snapshot: &Snapshot<D>,
    request: &Request,
) -> Result<Bytes, NoMemory>
    requires honest { IsOfHonest D.digest_of snapshot.now }
    ensures { (facts : WallFacts) (L : List Leaf) → Stands D.digest_of facts L snapshot.now → IsHonest D.digest_of facts L
        → IfOk result (Shows D.digest_of facts request.now L) }
{
    match request {
        Request::Look { have, whole, .. } => show(alloc, snapshot, *have, snapshot.f(), *whole),
        Request::Append { have, .. } => show(alloc, snapshot, *have, snapshot.f(), false),
        Request::Keys { size, .. } => keys(alloc, snapshot, *size),
    }
}

/// The bytes of the reply to a request, by the answer of its turn and the snapshot after it.
pub(crate) fn reply<D: Digester>(
    alloc: Global,
    snapshot: &Snapshot<D>,
    request: &Request,
    answer: Answer,
) -> Result<Bytes, NoMemory>
    requires honest { IsOfHonest D.digest_of snapshot.now }
    ensures { (facts : WallFacts) (L : List Leaf) → Stands D.digest_of facts L snapshot.now → IsHonest D.digest_of facts L
        → IfOk result (Replies D.digest_of facts request.now L answer) }
{
    match answer {
        Answer::Refused { cause } => refuse_for(alloc, snapshot.view().wall, cause),
        Answer::Looked { .. } | Answer::Placed { .. } => shown(alloc, snapshot, request),
    }
}
