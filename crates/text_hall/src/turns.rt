ghost use Rattle.std.specs.Prelude.{◌≡◌, [], IfOk};
ghost use Rattle.std.specs.Option.{ForSome};
ghost use Rattle.hall_gate.specs.Seats.{caller_of, front_of, fixed_of, IsSeatOf, IsSameSeat};
ghost use Rattle.text_hall.specs.AnswersTurn.{AnswersTurn};
ghost use Rattle.text_hall.specs.TextHall.{play, root_of};

use crate::call::{Call, Reply, Slip};
use crate::hall::TextHall;
use fr_bytes::{NoMemory, Texts, turns_grow};
use fr_digest::{Dig, Digester};
use hall_gate::{Gate, GateSeat};
use std::sync::Wait;

/// Writes a text through the gate. The seat's front has then one turn more of its caller's, and what is
/// shown is the root of the texts that this turn left.
pub fn answer<D: Digester, R: Wait>(
    rt: &R,
    gate: &Gate<TextHall<D>>,
    seat: &mut GateSeat<TextHall<D>>,
    slip: Slip,
) -> (Reply, Result<Dig, NoMemory>)
    requires seat { IsSeatOf gate.now seat.old }
    requires caller { slip.caller ≡ caller_of seat.old }
    ensures seat { IsSeatOf gate.now seat.new }
    ensures same { IsSameSeat seat.old seat.new }
    ensures turn { ForSome (fixed_of seat.old) (λ owner. AnswersTurn D.digest_of owner (front_of seat.old)
        (front_of seat.new) (caller_of seat.old) slip.text result.0) }
    ensures shown { IfOk result.1 (λ root. root ≡ root_of D.digest_of (play [] (front_of seat.new))) }
{
    turns_grow::<Call, Texts>();
    gate.turn(rt, seat, slip)
}
