//! Laws of seats, for whoever speaks of what they have seen. The functions do nothing: each is there for what it
//! ensures. The laws of the histories that seats see are fr_bytes's.
ghost use Rattle.hall_gate.specs.SeatLaws.{KnowsFixed, SeesSame, SeesOn};

use super::turned::Turned;

/// Each seat of a gate knows the fixed part of the value behind it.
pub fn knows_fixed<T: Turned>()
    ensures { KnowsFixed T T.Slip T.Answer T.Seen T.Entry T.Ask T.Fixed }
{}

/// To have seen more is to have seen at least the same, and goes on from one time to the next.
pub fn sees_more<T: Turned>()
    ensures same { SeesSame T T.Slip T.Answer T.Seen T.Entry T.Ask T.Fixed T.caller }
    ensures on { SeesOn T T.Slip T.Answer T.Seen T.Entry T.Ask T.Fixed T.caller }
{}
