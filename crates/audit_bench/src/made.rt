//! The world that the clients leave, whose requests a server answers.
ghost use Rattle.std.specs.Prelude.{◌≡◌, [], ◌∷◌, length, IfOk, OnOk};
ghost use Rattle.std.specs.List.{All};
ghost use Rattle.hall_server.specs.Seating.{IsSeatsOf};
ghost use Rattle.world_book.specs.Kept.{Kept};
ghost use Rattle.run_end.specs.Ends.{AreTogether};

use crate::people::People;
use crate::wall::{READER, WRITER, empty, signer};
use anyhow::Result;
use fr_digest::Digester;
use hall_core::Hall;
use hall_server::{Seats, Server};
use std::alloc::Global;
use std::sync::Wait;
use world_book::World;

/// A server of the wall, and a seat of each user.
fn opened<D: Digester>(alloc: Global, hall: Hall<D>) -> Result<(Server<D>, Vec<Seats<D>>)>
    requires { hall.entries ≡ [] }
    ensures seats { IfOk result (λ r. All (IsSeatsOf D.digest_of r.0) r.1.items) }
    ensures many { IfOk result (λ r. length r.1.items ≡ 2) }
{
    let mut halls = Vec::new(alloc);
    halls.push(hall)?;
    Ok(Server::make(halls, [WRITER, READER].as_slice())?)
}

/// The writer posts once more, and takes the reply.
fn write<D: Digester, R: Wait>(
    rt: &R,
    alloc: Global,
    server: &Server<D>,
    seats: &mut Seats<D>,
    people: &mut People<D>,
) -> Result<()>
    requires seats { IsSeatsOf D.digest_of server.now seats.old }
    requires together { AreTogether (people.old.note ∷ []) (people.old.writer ∷ people.old.reader ∷ []) }
    ensures seats { OnOk result (IsSeatsOf D.digest_of server.now seats.new) }
    ensures together { OnOk result (AreTogether (people.new.note ∷ []) (people.new.writer ∷ people.new.reader ∷ [])) }
{
    let sent = people.post(alloc)?;
    let reply = server.answer(rt, seats, sent.request.as_slice())?;
    people.take_post(alloc, &sent, reply.as_slice())?;
    Ok(())
}

/// The writer posts so often.
fn write_all<D: Digester, R: Wait>(
    rt: &R,
    alloc: Global,
    server: &Server<D>,
    seats: &mut Seats<D>,
    people: &mut People<D>,
    posts: u32,
) -> Result<()>
    requires seats { IsSeatsOf D.digest_of server.now seats.old }
    requires together { AreTogether (people.old.note ∷ []) (people.old.writer ∷ people.old.reader ∷ []) }
    ensures together { OnOk result (AreTogether (people.new.note ∷ []) (people.new.writer ∷ people.new.reader ∷ [])) }
{
    for _ in 0..posts {
        write(rt, alloc, server, seats, people)?;
    }
    Ok(())
}

/// The reader sees all of the wall.
fn read<D: Digester, R: Wait>(
    rt: &R,
    alloc: Global,
    server: &Server<D>,
    seats: &mut Seats<D>,
    people: &mut People<D>,
) -> Result<()>
    requires seats { IsSeatsOf D.digest_of server.now seats.old }
    requires together { AreTogether (people.old.note ∷ []) (people.old.writer ∷ people.old.reader ∷ []) }
    ensures together { OnOk result (AreTogether (people.new.note ∷ []) (people.new.writer ∷ people.new.reader ∷ [])) }
{
    let sent = people.look(alloc)?;
    let reply = server.answer(rt, seats, sent.request.as_slice())?;
    people.take_look(alloc, &sent, reply.as_slice())?;
    Ok(())
}

/// The clients of the wall, and its server with a seat of each.
#[derive(Drop)]
struct Scene<D: Digester> {
    people: People<D>,
    server: Server<D>,
    writer: Seats<D>,
    reader: Seats<D>,
}

fn set_up<D: Digester>(alloc: Global) -> Result<Scene<D>>
    ensures writer { IfOk result (λ s. IsSeatsOf D.digest_of s.server s.writer) }
    ensures reader { IfOk result (λ s. IsSeatsOf D.digest_of s.server s.reader) }
    ensures together { IfOk result (λ s. AreTogether (s.people.note ∷ []) (s.people.writer ∷ s.people.reader ∷ [])) }
{
    let writer = signer(alloc, 6, 1)?;
    let reader = signer(alloc, 5, 2)?;
    let (hall, everybody) = empty::<D>(alloc, writer.public(), reader.public())?;
    let people = People::of(alloc, &everybody, writer, reader)?;
    let (server, mut all) = opened(alloc, hall)?;
    let Some(reader) = all.pop() else {
        unreachable!()
    };
    let Some(writer) = all.pop() else {
        unreachable!()
    };
    Ok(Scene {
        people,
        server,
        writer,
        reader,
    })
}

/// What is kept of a run in which the writer posts so often, at most 1,024 times, and takes each reply, and the reader
/// then takes one that shows all of the wall. So there is a record more than there are posts.
pub fn make_world<D: Digester, R: Wait>(rt: &R, alloc: Global, posts: u32) -> Result<World>
    ensures { IfOk result (Kept D.digest_of) }
{
    let Scene {
        mut people,
        server,
        mut writer,
        mut reader,
    } = set_up::<D>(alloc)?;
    write_all(rt, alloc, &server, &mut writer, &mut people, posts)?;
    read(rt, alloc, &server, &mut reader, &mut people)?;
    people.end(alloc)
}
