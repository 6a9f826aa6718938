//! A request is answered: one turn, and the reply that is made of the snapshot after it.
ghost use Rattle.hall_core.specs.declared.ask.Ask.{Ask};
ghost use Rattle.hall_core.specs.Calls.{play};
ghost use Rattle.hall_core.specs.PlainWall.{IsAsk};
ghost use Rattle.hall_core.specs.Snapshots.{Stands};
ghost use Rattle.hall_gate.specs.Seats.{IsSameSeat, IsSeatOf, caller_of, fixed_of, front_of};
ghost use Rattle.hall_server.specs.Answers.{Answers, AnswersRequest, AnswersTurn, Halfway, HalfwayAt, HalfwayIn, HaveGrown, Turned, TurnsAt};
ghost use Rattle.hall_server.specs.HonestReplies.{IsAskOf, wall_in};
ghost use Rattle.hall_server.specs.Seating.{IsFirst, IsSeatsOf, walls_of};
ghost use Rattle.hall_server.specs.Sights.{sight_at, user_of};
ghost use Rattle.std.specs.List.{Contains};
ghost use Rattle.std.specs.Option.{ForSome};
ghost use Rattle.std.specs.Prelude.{◌≡◌, None, IfOk, IfSome, IsErrOf, OnErr};

use crate::refusing::refuse;
use crate::replying::{reply, wall_in};
use crate::seats::Seats;
use crate::server::Server;
use crate::turned::TurnedHall;
use fr_bytes::{Bytes, NoMemory, ReadRefusal};
use fr_digest::Digester;
use hall_core::{Answer, Ask, Slip, Snapshot};
use hall_gate::{Gate, GateSeat};
use msg_form::{Request, causes, read_request};
use op_types::read_op;
use std::alloc::Global;
use std::sync::Wait;

impl<D: Digester> Server<D> {
    /// The honest reply to the bytes of a request by the seats' user.
    ///
    /// Bytes that spell no request are refused with `BAD_REQUEST` and wall 0; a wall that is none of the server's with
    /// `WRONG_WALL`; bytes that spell no operation with `BAD_REQUEST`. None of these makes a turn. Else the user makes
    /// one turn at the wall, with a look or with the operation, and the reply is made of the snapshot of the wall after
    /// it, which the seats keep: a refusal of the operation with its cause; for the changes of the access list of no
    /// positions, or of more than there are, `BAD_REQUEST`; else what the request asks to be shown.
    ///
    /// The seats are this server's. It may wait for other users' turns, and says nothing of how long; the reply is made
    /// when the turn is over. A turn that was made stays made where there is no memory for its reply.
    pub fn answer<R: Wait>(
        &self,
        rt: &R,
        seats: &mut Seats<D>,
        request: &[u8],
    ) -> Result<Bytes, NoMemory>
        requires seats { IsSeatsOf D.digest_of self.now seats.old }
        ensures seats { IsSeatsOf D.digest_of self.now seats.new }
        ensures user { user_of seats.new ≡ user_of seats.old }
        ensures grown { HaveGrown (sight_at seats.old) (sight_at seats.new) }
        ensures answers { IfOk result (λ reply. Answers D.digest_of (user_of seats.old) (walls_of self.now)
            (sight_at seats.old) (sight_at seats.new) request.now reply) }
        ensures halfway { OnErr result (Halfway D.digest_of (user_of seats.old) (sight_at seats.old) (sight_at seats.new)
            request.now) }
    {
        let alloc = *self.gates.allocator();
        match read_request(alloc, request) {
            Ok(request) => self.answer_request(rt, alloc, seats, &request),
            Err(ReadRefusal::NotForm) => refuse(alloc, 0, causes::BAD_REQUEST, 0),
            Err(ReadRefusal::NoMemory) => Err(NoMemory),
        }
    }

    // The reply to a request.
    fn answer_request<R: Wait>(
        &self,
        rt: &R,
        alloc: Global,
        seats: &mut Seats<D>,
        request: &Request,
    ) -> Result<Bytes, NoMemory>
        requires seats { IsSeatsOf D.digest_of self.now seats.old }
        ensures seats { IsSeatsOf D.digest_of self.now seats.new }
        ensures user { user_of seats.new ≡ user_of seats.old }
        ensures grown { HaveGrown (sight_at seats.old) (sight_at seats.new) }
        ensures answers { IfOk result (AnswersRequest D.digest_of (user_of seats.old) (walls_of self.now)
            (sight_at seats.old) (sight_at seats.new) request.now) }
        ensures halfway { OnErr result (HalfwayIn D.digest_of (user_of seats.old) (sight_at seats.old)
            (sight_at seats.new) request.now) }
    {
        let wall = wall_in(request);
        let Some(place) = self.place_of(wall) else {
            return refuse(alloc, wall, causes::WRONG_WALL, 0);
        };
        match ask_of(alloc, request) {
            Ok(ask) => self.answer_ask(rt, alloc, place, seats, request, ask),
            Err(ReadRefusal::NotForm) => refuse(alloc, wall, causes::BAD_REQUEST, 0),
            Err(ReadRefusal::NoMemory) => Err(NoMemory),
        }
    }

    // The reply to a request that asks this.
    fn answer_ask<R: Wait>(
        &self,
        rt: &R,
        alloc: Global,
        place: usize,
        seats: &mut Seats<D>,
        request: &Request,
        ask: Ask,
    ) -> Result<Bytes, NoMemory>
        requires seats { IsSeatsOf D.digest_of self.now seats.old }
        requires place { IsFirst (walls_of self.now) (wall_in request.now) place }
        requires asks { IsAskOf request.now ask }
        ensures seats { IsSeatsOf D.digest_of self.now seats.new }
        ensures user { user_of seats.new ≡ user_of seats.old }
        ensures grown { HaveGrown (sight_at seats.old) (sight_at seats.new) }
        ensures answers { IfOk result (AnswersTurn D.digest_of (user_of seats.old) (sight_at seats.old)
            (sight_at seats.new) request.now ask) }
        ensures halfway { OnErr result (HalfwayAt D.digest_of (user_of seats.old) (sight_at seats.old)
            (sight_at seats.new) (wall_in request.now) ask) }
    {
        let wall = wall_in(request);
        let answer = self.take_turn(rt, alloc, wall, place, seats, ask)?;
        reply(alloc, seats.snapshot(wall), request, answer)
    }

    // Makes a turn at a wall, and keeps the snapshot after it.
    fn take_turn<R: Wait>(
        &self,
        rt: &R,
        alloc: Global,
        wall: u32,
        place: usize,
        seats: &mut Seats<D>,
        ask: Ask,
    ) -> Result<Answer, NoMemory>
        requires seats { IsSeatsOf D.digest_of self.now seats.old }
        requires place { IsFirst (walls_of self.now) wall place }
        requires spelled { IsAsk ask }
        ensures seats { IsSeatsOf D.digest_of self.now seats.new }
        ensures user { user_of seats.new ≡ user_of seats.old }
        ensures turned { IfOk result (Turned D.digest_of (user_of seats.old) (sight_at seats.old) (sight_at seats.new)
            wall ask) }
        ensures halfway { OnErr result (HalfwayAt D.digest_of (user_of seats.old) (sight_at seats.old)
            (sight_at seats.new) wall ask) }
    {
        let Ok(slip) = Slip::new(alloc, seats.user, ask) else {
            return Err(NoMemory);
        };
        let (answer, seen) = turn_at(rt, &self.gates[place], &mut seats.places.seats[place], slip);
        seats.snapshots[place] = seen?;
        Ok(answer)
    }

    // The place of a wall.
    fn place_of(&self, wall: u32) -> Option<usize>
        ensures found { IfSome result (IsFirst (walls_of self.now) wall) }
        ensures none { result ≡ None → Contains (walls_of self.now) wall → ⊥ }
    {
        for place in 0..self.walls.len() {
            if self.walls[place] == wall {
                return Some(place);
            }
        }
        None
    }
}

// What a request asks of its wall. `NotForm` comes exactly where the bytes of its operation spell none.
fn ask_of(alloc: Global, request: &Request) -> Result<Ask, ReadRefusal>
    ensures found { IfOk result (IsAskOf request.now) }
    ensures not_form { IsErrOf result ReadRefusal.NotForm → (ask : Ask) → IsAskOf request.now ask → ⊥ }
{
    match request {
        Request::Look { .. } | Request::Keys { .. } => Ok(Ask::Look),
        Request::Append { op, .. } => Ok(Ask::Append {
            op: read_op(alloc, op.as_slice())?,
        }),
    }
}

// A turn at a gate.
fn turn_at<D: Digester, R: Wait>(
    rt: &R,
    gate: &Gate<TurnedHall<D>>,
    seat: &mut GateSeat<TurnedHall<D>>,
    slip: Slip,
) -> (Answer, Result<Snapshot<D>, NoMemory>)
    requires seat { IsSeatOf gate.now seat.old }
    requires caller { slip.caller ≡ caller_of seat.old }
    ensures seat { IsSeatOf gate.now seat.new }
    ensures same { IsSameSeat seat.old seat.new }
    ensures turn { ForSome (fixed_of seat.old) (λ facts. TurnsAt D.digest_of facts (caller_of seat.old)
        (front_of seat.old) (front_of seat.new) slip.ask result.0) }
    ensures shown { IfOk result.1 (λ snapshot. ForSome (fixed_of seat.old) (λ facts. Stands D.digest_of facts
        (play D.digest_of facts (front_of seat.new)) snapshot)) }
{
    gate.turn(rt, seat, slip)
}
