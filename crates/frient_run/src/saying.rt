//! What is said of a call, and what it hands out.
ghost use Rattle.std.specs.Prelude.{◌≡◌};
ghost use Rattle.frient_run.specs.Ends.{HandsOut, HandsNothing, Says};

use crate::ended::{Ended, Halls};
use crate::fate::Fate;
use fr_bytes::Sequence;
use fr_edges::Sink;
use frient_edges::say;
use script_form::{AuditLine, Outcomes};
use std::alloc::Global;
use world_book::{Log, World};

/// The status where words or script are refused.
const REFUSED: u8 = 2;

/// The status where a read failed.
const UNREAD: u8 = 3;

/// The status where memory was wanting.
const STARVED: u8 = 6;

// An end that hands out nothing.
fn nothing(alloc: Global, status: u8) -> Ended
    ensures status { result.status ≡ status }
    ensures handed { HandsNothing result }
{
    Ended {
        status,
        world: World {
            users: Log::empty(alloc),
            walls: Log::empty(alloc),
        },
        halls: Halls::Sha(Vec::new(alloc)),
        outcomes: Outcomes {
            commands: Sequence::of(Vec::new(alloc)),
            walls: Sequence::of(Vec::new(alloc)),
            audit: AuditLine::Sound {
                records: 0,
                grounded: 0,
            },
        },
    }
}

/// Says what came of a call, and hands it out. Takes no memory.
pub(crate) fn conclude<K: Sink>(alloc: Global, sink: &mut K, fate: Fate) -> Ended
    ensures said { Says (K.view sink.old) (K.view sink.new) fate result.status }
    ensures handed { HandsOut fate result }
{
    match fate {
        Fate::Ran(told) => Ended {
            status: say(sink, told.text.as_slice(), told.status),
            world: told.world,
            halls: told.halls,
            outcomes: told.outcomes,
        },
        Fate::Refused(line) => nothing(alloc, say(sink, line.as_slice(), REFUSED)),
        Fate::Unread => nothing(alloc, UNREAD),
        Fate::Starved => nothing(alloc, STARVED),
    }
}
