//! One command.
ghost use Rattle.client_core.specs.Sides.{HasSide, SideView, side_of, sides_view};
ghost use Rattle.hall_server.specs.Answers.{HaveGrown};
ghost use Rattle.hall_server.specs.Seating.{IsSeatsOf, walls_of};
ghost use Rattle.hall_server.specs.Sights.{sight_at, user_of};
ghost use Rattle.msg_form.specs.declared.decline.Decline.TheVariants as declines;
ghost use Rattle.msg_form.specs.declared.verdict.Verdict.TheVariants as verdicts;
ghost use Rattle.script_form.specs.declared.outcome.Outcome.{Outcome};
ghost use Rattle.session_laws.specs.Doing.{PlainClient, Task};
ghost use Rattle.session_laws.specs.Lanes.{Halfway, TaskRun};
ghost use Rattle.session_laws.specs.Readiness.{CanDo};
ghost use Rattle.session_run.specs.News.{IsNews, news_keys};
ghost use Rattle.session_run.specs.Parts.{BookGrows, HasSent, KeysBehind, Learnt, Told, WireGrows};
ghost use Rattle.session_run.specs.Phases.{IsAsked};
ghost use Rattle.session_run.specs.Views.{client_of, told};
ghost use Rattle.std.specs.List.{Contains};
ghost use Rattle.std.specs.Prelude.{◌≡◌, ◌≢◌, ◌∷◌, ◌++◌, [], ℕ, List, IfOk, OnErr, Some};

use crate::asking::ask;
use crate::ends::{end_of, outcome, plain_outcome, shown_of};
use crate::exchange::exchange;
use client_core::{Client, News, Sent};
use fr_bytes::NoMemory;
use fr_digest::Digester;
use fr_edges::Wire;
use hall_server::{Seats, Server};
use msg_form::{Decline, Verdict};
use script_form::{Command, CommandEnd, KeysEnd, Outcome};
use session_laws::Place;
use std::alloc::Global;
use std::sync::Wait;

// A verdict that tells of what was delivered. Want of memory tells nothing of it.
fn of_bytes(verdict: Verdict) -> Result<Verdict, NoMemory>
    ensures { IfOk result (λ told. (told ≡ verdict) × (verdict ≢ verdicts.NoMemory)) }
{
    match verdict {
        Verdict::NoMemory => Err(NoMemory),
        told => Ok(told),
    }
}

// A decline by the client's rules. Want of memory is none.
fn by_rule(decline: Decline) -> Result<Decline, NoMemory>
    ensures { IfOk result (λ told. (told ≡ decline) × (decline ≢ declines.NoMemory)) }
{
    match decline {
        Decline::NoMemory => Err(NoMemory),
        told => Ok(told),
    }
}

// Asks for the changes of the access list of a wall, and has the client learn them.
fn learn<D: Digester, W: Wire, R: Wait>(
    rt: &R,
    alloc: Global,
    server: &Server<D>,
    client: &mut Client<D>,
    seats: &mut Seats<D>,
    wire: &mut W,
    wall: u32,
) -> Result<KeysEnd, NoMemory>
    requires side { HasSide wall (sides_view client.old.sides) }
    requires seats { IsSeatsOf D.digest_of server.now seats.old }
    requires listed { Contains (walls_of server.now) wall }
    ensures learnt { IfOk result (λ end. (s : SideView) → side_of wall (sides_view client.old.sides) ≡ Some s
        → Learnt D.digest_of (user_of seats.old) (client_of client.old) (client_of client.new) (sight_at seats.old)
        (sight_at seats.new) (W.view wire.old) (W.view wire.new) s end) }
    ensures seats { IsSeatsOf D.digest_of server.now seats.new }
    ensures user { user_of seats.new ≡ user_of seats.old }
    ensures grown { HaveGrown (sight_at seats.old) (sight_at seats.new) }
    ensures grows { WireGrows (W.view wire.old) (W.view wire.new) }
    ensures book { BookGrows (client_of client.old) (client_of client.new) }
{
    let request = client.keys_request(alloc, wall)?;
    let Some(bytes) = exchange(rt, alloc, server, seats, wire, request.as_slice())? else {
        return Ok(KeysEnd::Lost);
    };
    match client.take_keys(alloc, wall, bytes.as_slice()) {
        Ok(()) => Ok(KeysEnd::Fine),
        Err(verdict) => Ok(KeysEnd::Rejected(of_bytes(verdict)?)),
    }
}

// Whether keys are to be asked for behind these news of a wall.
fn asks_keys<D: Digester>(client: &Client<D>, wall: u32, news: &News) -> bool
    requires { HasSide wall (sides_view client.now.sides) }
    ensures { (s : SideView) → side_of wall (sides_view client.now.sides) ≡ Some s → result ≡ news_keys s news.now }
{
    match news {
        News::Same { .. } | News::Took { .. } => client.needs_keys(wall),
        News::Refused { .. } => false,
    }
}

// What came of the keys behind news of a wall: they are asked for where they are needed.
fn keys_behind<D: Digester, W: Wire, R: Wait>(
    rt: &R,
    alloc: Global,
    server: &Server<D>,
    client: &mut Client<D>,
    seats: &mut Seats<D>,
    wire: &mut W,
    wall: u32,
    news: &News,
) -> Result<KeysEnd, NoMemory>
    requires side { HasSide wall (sides_view client.old.sides) }
    requires seats { IsSeatsOf D.digest_of server.now seats.old }
    requires listed { Contains (walls_of server.now) wall }
    ensures keys { IfOk result (λ end. (t : SideView) → side_of wall (sides_view client.old.sides) ≡ Some t
        → KeysBehind D.digest_of (user_of seats.old) (client_of client.old) (client_of client.new) (sight_at seats.old)
        (sight_at seats.new) (W.view wire.old) (W.view wire.new) t news.now end) }
    ensures seats { IsSeatsOf D.digest_of server.now seats.new }
    ensures user { user_of seats.new ≡ user_of seats.old }
    ensures grown { HaveGrown (sight_at seats.old) (sight_at seats.new) }
    ensures grows { WireGrows (W.view wire.old) (W.view wire.new) }
    ensures book { BookGrows (client_of client.old) (client_of client.new) }
{
    if !asks_keys(client, wall, news) {
        return Ok(KeysEnd::Fine);
    }
    learn(rt, alloc, server, client, seats, wire, wall)
}

// What came of a command whose reply the client didn't reject.
fn tell<D: Digester, W: Wire, R: Wait>(
    rt: &R,
    alloc: Global,
    server: &Server<D>,
    client: &mut Client<D>,
    seats: &mut Seats<D>,
    wire: &mut W,
    place: Place,
    wall: u32,
    news: &News,
) -> Result<Outcome, NoMemory>
    requires side { HasSide wall (sides_view client.old.sides) }
    requires seats { IsSeatsOf D.digest_of server.now seats.old }
    requires listed { Contains (walls_of server.now) wall }
    requires news { IsNews wall news.now }
    ensures told { IfOk result (λ o. (t : SideView) → side_of wall (sides_view client.old.sides) ≡ Some t
        → Told D.digest_of (user_of seats.old) place (client_of client.old) (client_of client.new) (sight_at seats.old)
        (sight_at seats.new) (W.view wire.old) (W.view wire.new) t news.now o) }
    ensures seats { IsSeatsOf D.digest_of server.now seats.new }
    ensures user { user_of seats.new ≡ user_of seats.old }
    ensures grown { HaveGrown (sight_at seats.old) (sight_at seats.new) }
    ensures grows { WireGrows (W.view wire.old) (W.view wire.new) }
    ensures book { BookGrows (client_of client.old) (client_of client.new) }
{
    let keys = keys_behind(rt, alloc, server, client, seats, wire, wall, news)?;
    let shown = shown_of(alloc, client, news)?;
    Ok(outcome(place, end_of(news), shown, keys))
}

// What came of a command for which the client sent this.
fn send<D: Digester, W: Wire, R: Wait>(
    rt: &R,
    alloc: Global,
    server: &Server<D>,
    client: &mut Client<D>,
    seats: &mut Seats<D>,
    wire: &mut W,
    place: Place,
    sent: &Sent,
) -> Result<Outcome, NoMemory>
    requires side { HasSide sent.now.wall (sides_view client.old.sides) }
    requires seats { IsSeatsOf D.digest_of server.now seats.old }
    requires listed { Contains (walls_of server.now) sent.now.wall }
    ensures ran { IfOk result (λ o. (c : PlainClient) (s : SideView) (task : Task) (os : List Outcome)
        → task.place ≡ place → HasSent c (client_of client.old) s task sent.now
        → TaskRun D.digest_of (user_of seats.old)
        (record { client = c; outcomes = os; seat = sight_at seats.old; wire = W.view wire.old })
        (told client.new seats.new (W.view wire.new) (os ++ o ∷ [])) task) }
    ensures seats { IsSeatsOf D.digest_of server.now seats.new }
    ensures user { user_of seats.new ≡ user_of seats.old }
    ensures grown { HaveGrown (sight_at seats.old) (sight_at seats.new) }
    ensures grows { WireGrows (W.view wire.old) (W.view wire.new) }
    ensures book { BookGrows (client_of client.old) (client_of client.new) }
{
    let delivered = exchange(rt, alloc, server, seats, wire, sent.request.as_slice())?;
    let Some(bytes) = delivered else {
        return Ok(plain_outcome(alloc, place, CommandEnd::Lost));
    };
    match client.take_reply(alloc, sent, bytes.as_slice()) {
        Ok(news) => tell(
            rt, alloc, server, client, seats, wire, place, sent.wall, &news,
        ),
        Err(verdict) => {
            let verdict = of_bytes(verdict)?;
            Ok(plain_outcome(alloc, place, CommandEnd::Rejected(verdict)))
        }
    }
}

/// Does the command at a place: the client declines it, or what it asks is answered, carried and heard. The seats are
/// the client's user's at the server, the command's wall is one of the server's, and the client can do it.
///
/// On want of memory the command has no outcome, and what was done of it stays.
pub(crate) fn run_command<D: Digester, W: Wire, R: Wait>(
    rt: &R,
    alloc: Global,
    server: &Server<D>,
    client: &mut Client<D>,
    seats: &mut Seats<D>,
    wire: &mut W,
    place: Place,
    command: &Command,
) -> Result<Outcome, NoMemory>
    requires can { CanDo (client_of client.old) (command.now ∷ []) }
    requires asked { IsAsked (walls_of server.now) command.now }
    requires seats { IsSeatsOf D.digest_of server.now seats.old }
    ensures ran { IfOk result (λ o. (os : List Outcome) → TaskRun D.digest_of (user_of seats.old)
        (told client.old seats.old (W.view wire.old) os) (told client.new seats.new (W.view wire.new) (os ++ o ∷ []))
        (record { place = place; user = user_of seats.old; command = command.now })) }
    ensures halfway { OnErr result ((os : List Outcome) → Halfway (told client.old seats.old (W.view wire.old) os)
        (told client.new seats.new (W.view wire.new) os)) }
    ensures seats { IsSeatsOf D.digest_of server.now seats.new }
    ensures user { user_of seats.new ≡ user_of seats.old }
{
    match ask(alloc, client, command) {
        Ok(sent) => send(rt, alloc, server, client, seats, wire, place, &sent),
        Err(decline) => {
            let decline = by_rule(decline)?;
            Ok(plain_outcome(alloc, place, CommandEnd::Declined(decline)))
        }
    }
}
