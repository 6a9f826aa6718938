//! The clients of the wall's writer and of its reader.
ghost use Rattle.std.specs.Prelude.{◌≡◌, ◌≤◌, [], ◌∷◌, map, ℕ, IfOk, OnOk};
ghost use Rattle.lms_tree.specs.Valid.{Key};
ghost use Rattle.client_core.specs.Clients.{client_view};
ghost use Rattle.client_core.specs.Sides.{HasSide, sides_view};
ghost use Rattle.world_book.specs.Kept.{Kept};
ghost use Rattle.run_end.specs.Ends.{AreTogether};
ghost use Rattle.audit_worlds.specs.Clients.{IsSame};

use crate::wall::{Everybody, READER, WALL, WRITER, client};
use anyhow::Result;
use client_core::{Client, News, Sent};
use fr_digest::Digester;
use lms_tree::Signer;
use run_end::world_of;
use std::alloc::Global;
use world_book::{Log, WallNote, World};

/// Both clients, and what everybody knows of the wall.
#[derive(Drop)]
pub struct People<D: Digester> {
    writer: Client<D>,
    reader: Client<D>,
    note: WallNote,
}

/// What is sent, where it goes to the wall.
fn to_wall(sent: Sent) -> Result<Sent>
    ensures same { IfOk result (λ s. s ≡ sent) }
    ensures wall { OnOk result (sent.wall ≡ 1) }
{
    if sent.wall != WALL {
        return Err(anyhow::Error::msg("it goes to another wall"));
    }
    Ok(sent)
}

/// What a client sends, to post a text.
fn post<D: Digester>(alloc: Global, client: &mut Client<D>) -> Result<Sent>
    ensures same { OnOk result (IsSame (client_view client.old) (client_view client.new)) }
    ensures side { IfOk result (λ sent. HasSide sent.wall (sides_view client.new.sides)) }
{
    if !client.is_ready(WALL) {
        return Err(anyhow::Error::msg("the client isn't ready to post"));
    }
    match client.post_request(alloc, WALL, b"t") {
        Ok(sent) => to_wall(sent),
        Err(_) => Err(anyhow::Error::msg("a post is declined")),
    }
}

/// A client takes a reply.
fn take<D: Digester>(
    alloc: Global,
    client: &mut Client<D>,
    sent: &Sent,
    reply: &[u8],
) -> Result<News>
    requires { HasSide sent.now.wall (sides_view client.old.sides) }
    ensures { OnOk result (IsSame (client_view client.old) (client_view client.new)) }
{
    match client.take_reply(alloc, sent, reply) {
        Ok(news) => Ok(news),
        Err(_) => Err(anyhow::Error::msg("a reply is rejected")),
    }
}

impl<D: Digester> People<D> {
    /// Clients that have accepted nothing.
    #[tactic(auto, using(crate::proofs::Together::begin_together))]
    pub fn of(
        alloc: Global,
        everybody: &Everybody,
        writer: Signer,
        reader: Signer,
    ) -> Result<People<D>>
        requires few { everybody.now.note.f ≤ 31 }
        requires keys { map (λ (p : ℕ × Key). p.0) everybody.now.keys ≡ 1 ∷ 2 ∷ [] }
        ensures { IfOk result (λ people. AreTogether (people.note ∷ []) (people.writer ∷ people.reader ∷ [])) }
    {
        Ok(People {
            writer: client(alloc, everybody, WRITER, writer)?,
            reader: client(alloc, everybody, READER, reader)?,
            note: everybody.note,
        })
    }

    /// What the writer sends, to post once more.
    pub fn post(&mut self, alloc: Global) -> Result<Sent>
        requires { AreTogether (self.old.note ∷ []) (self.old.writer ∷ self.old.reader ∷ []) }
        ensures together { OnOk result (AreTogether (self.new.note ∷ []) (self.new.writer ∷ self.new.reader ∷ [])) }
        ensures side { IfOk result (λ sent. HasSide sent.wall (sides_view self.new.writer.sides)) }
    {
        post(alloc, &mut self.writer)
    }

    /// The writer takes the reply to its post.
    pub fn take_post(&mut self, alloc: Global, sent: &Sent, reply: &[u8]) -> Result<News>
        requires side { HasSide sent.now.wall (sides_view self.old.writer.sides) }
        requires together { AreTogether (self.old.note ∷ []) (self.old.writer ∷ self.old.reader ∷ []) }
        ensures { OnOk result (AreTogether (self.new.note ∷ []) (self.new.writer ∷ self.new.reader ∷ [])) }
    {
        take(alloc, &mut self.writer, sent, reply)
    }

    /// What the reader sends, to see all of the wall.
    pub fn look(&self, alloc: Global) -> Result<Sent>
        ensures { IfOk result (λ sent. HasSide sent.wall (sides_view self.now.reader.sides)) }
    {
        if !self.reader.is_ready(WALL) {
            return Err(anyhow::Error::msg("the reader isn't ready to look"));
        }
        to_wall(self.reader.look_request(alloc, WALL, true)?)
    }

    /// The reader takes the reply to its look.
    pub fn take_look(&mut self, alloc: Global, sent: &Sent, reply: &[u8]) -> Result<News>
        requires side { HasSide sent.now.wall (sides_view self.old.reader.sides) }
        requires together { AreTogether (self.old.note ∷ []) (self.old.writer ∷ self.old.reader ∷ []) }
        ensures { OnOk result (AreTogether (self.new.note ∷ []) (self.new.writer ∷ self.new.reader ∷ [])) }
    {
        take(alloc, &mut self.reader, sent, reply)
    }

    /// What is kept of both when their clients end.
    pub fn end(self, alloc: Global) -> Result<World>
        requires { AreTogether (self.note ∷ []) (self.writer ∷ self.reader ∷ []) }
        ensures { IfOk result (Kept D.digest_of) }
    {
        let mut notes = Log::empty(alloc);
        notes.push(self.note)?;
        let clients = Vec::from_array(alloc, [self.writer, self.reader])?;
        Ok(world_of(alloc, clients, notes)?)
    }
}
