//! Replies that tell why nothing was done.
ghost use Rattle.hall_server.specs.HonestReplies.{Refuses, TellsCause};
ghost use Rattle.msg_form.specs.Causes.{greatest_detail};
ghost use Rattle.std.specs.Prelude.{◌≤◌, IfOk};

use fr_bytes::{Bytes, NoMemory};
use hall_core::Cause;
use msg_form::{Reply, causes, write_reply};
use std::alloc::Global;

/// The bytes of a refusal.
pub(crate) fn refuse(alloc: Global, wall: u32, cause: u8, number: u64) -> Result<Bytes, NoMemory>
    requires first { 1 ≤ cause }
    requires last { cause ≤ 10 }
    requires detail { number ≤ greatest_detail cause }
    ensures { IfOk result (Refuses wall cause number) }
{
    write_reply(
        alloc,
        &Reply::Refused {
            wall,
            cause,
            number,
        },
    )
}

/// The bytes that tell the cause for which a wall takes no operation. Want of memory in the hall is want of memory here.
pub(crate) fn refuse_for(alloc: Global, wall: u32, cause: Cause) -> Result<Bytes, NoMemory>
    ensures { IfOk result (TellsCause wall cause) }
{
    match cause {
        Cause::Full => refuse(alloc, wall, causes::FULL, 0),
        Cause::BadSignature => refuse(alloc, wall, causes::BAD_SIGNATURE, 0),
        Cause::WrongWall => refuse(alloc, wall, causes::WRONG_WALL, 0),
        Cause::NotAllowed => refuse(alloc, wall, causes::NOT_ALLOWED, 0),
        Cause::StaleEpoch { now } => refuse(alloc, wall, causes::STALE_EPOCH, now),
        Cause::Replayed { next } => refuse(alloc, wall, causes::REPLAYED, u64::from(next)),
        Cause::BadChange => refuse(alloc, wall, causes::BAD_CHANGE, 0),
        Cause::LateView => refuse(alloc, wall, causes::LATE_VIEW, 0),
        Cause::BadView => refuse(alloc, wall, causes::BAD_VIEW, 0),
        Cause::NoMemory => Err(NoMemory),
    }
}
