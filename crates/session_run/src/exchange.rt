//! One exchange: the server answers a request, and the wire carries the reply.
ghost use Rattle.fr_bytes.specs.Bytes.{IsBytes};
ghost use Rattle.hall_core.specs.declared.ask.Ask.{Ask};
ghost use Rattle.hall_server.specs.Answers.{HaveGrown};
ghost use Rattle.hall_server.specs.HonestReplies.{IsAskOf, wall_in};
ghost use Rattle.hall_server.specs.Seating.{IsSeatsOf, walls_of};
ghost use Rattle.hall_server.specs.Sights.{sight_at, user_of};
ghost use Rattle.msg_form.specs.declared.message.Request.{Request};
ghost use Rattle.msg_form.specs.Messages.{SpellsRequest};
ghost use Rattle.session_laws.specs.Lanes.{Passed};
ghost use Rattle.session_run.specs.Parts.{CarriesIt, WireGrows};
ghost use Rattle.std.specs.List.{Contains};
ghost use Rattle.std.specs.Prelude.{◌≡◌, IfOk, IfSome};

use fr_bytes::{Bytes, NoMemory};
use fr_digest::Digester;
use fr_edges::{CarryEnd, Wire};
use hall_server::{Seats, Server};
use op_types::laws;
use std::alloc::Global;
use std::sync::Wait;

// What a wire delivers for a request and the reply to it, or nothing where it lost them.
fn carried<W: Wire>(
    alloc: Global,
    wire: &mut W,
    request: &[u8],
    reply: &[u8],
) -> Result<Option<Bytes>, NoMemory>
    ensures carries { IfOk result (CarriesIt (W.view wire.old) (W.view wire.new) request.now reply.now) }
    ensures grows { WireGrows (W.view wire.old) (W.view wire.new) }
{
    let mut out = Vec::new(alloc);
    match wire.carry(request, reply, &mut out) {
        Ok(()) => {
            laws::slices_of_bytes(&out);
            Ok(Some(Bytes::of(out)))
        }
        Err(CarryEnd::Lost) => Ok(None),
        Err(CarryEnd::NoMemory) => Err(NoMemory),
    }
}

/// Has the server answer the bytes of a request, and carries the reply: what is delivered, or nothing where it is lost.
pub(crate) fn exchange<D: Digester, W: Wire, R: Wait>(
    rt: &R,
    alloc: Global,
    server: &Server<D>,
    seats: &mut Seats<D>,
    wire: &mut W,
    request: &[u8],
) -> Result<Option<Bytes>, NoMemory>
    requires seats { IsSeatsOf D.digest_of server.now seats.old }
    ensures seats { IsSeatsOf D.digest_of server.now seats.new }
    ensures user { user_of seats.new ≡ user_of seats.old }
    ensures passed { IfOk result (λ delivered. (r : Request) (a : Ask) → SpellsRequest r request.now → IsAskOf r a
        → Contains (walls_of server.now) (wall_in r)
        → Passed D.digest_of (user_of seats.old) (sight_at seats.old) (sight_at seats.new) (W.view wire.old)
        (W.view wire.new) r a delivered) }
    ensures bytes { IfOk result (λ delivered. IfSome delivered IsBytes) }
    ensures grown { HaveGrown (sight_at seats.old) (sight_at seats.new) }
    ensures grows { WireGrows (W.view wire.old) (W.view wire.new) }
{
    let reply = server.answer(rt, seats, request)?;
    carried(alloc, wire, request, reply.as_slice())
}
