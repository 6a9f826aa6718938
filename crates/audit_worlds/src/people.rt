//! The users' clients.
ghost use Rattle.std.specs.Prelude.{◌≡◌, [], ◌∷◌, ℕ, List, map, IfOk, OnOk};
ghost use Rattle.std.specs.List.{AllByRecursion};
ghost use Rattle.lms_tree.specs.Valid.{Key};
ghost use Rattle.world_book.specs.declared.world.WallNote.{WallNote};
ghost use Rattle.world_book.specs.Kept.{Kept};
ghost use Rattle.run_end.specs.Ends.{AreTogether, user_in};
ghost use Rattle.audit_worlds.specs.Clients.{Knows};

use crate::steps::{Outcome, Step, ask, take};
use crate::wall::{Everybody, USERS, client};
use client_core::{Client, Sent};
use fr_digest::Digester;
use msg_form::Decline;
use run_end::world_of;
use std::alloc::Global;
use std::test::Fail;
use world_book::{Log, WallNote, World};

/// Who does something: the user at this place; or its twin, another client with the same keys, of which nothing is
/// kept.
#[derive(Clone, Copy)]
pub struct By {
    pub place: usize,
    pub twin: bool,
}

/// Each user's client, and each one's twin.
#[derive(Drop)]
pub struct People<D: Digester> {
    pub clients: Vec<Client<D>>,
    pub twins: Vec<Client<D>>,
}

fn clients<D: Digester>(
    alloc: Global,
    everybody: &Everybody,
    users: &[u8],
    rogues: &[u8],
) -> Result<Vec<Client<D>>, Fail>
    ensures know { IfOk result (λ cs. AllByRecursion (Knows everybody.now.note everybody.now.keys) cs.items) }
    ensures users { IfOk result (λ cs. map user_in cs.items ≡ users.now) }
{
    let mut clients = Vec::new(alloc);
    for user in users {
        clients.push(client(alloc, everybody, *user, rogues.contains(user))?)?;
    }
    Ok(clients)
}

impl<D: Digester> People<D> {
    /// Clients of which these users' may do as they like.
    #[tactic(auto, using(crate::proofs::Beginning::begin_together))]
    pub fn of(alloc: Global, everybody: &Everybody, rogues: &[u8]) -> Result<People<D>, Fail>
        requires { map (λ (p : ℕ × Key). p.0) everybody.now.keys ≡ 1 ∷ 2 ∷ 3 ∷ 4 ∷ [] }
        ensures { IfOk result (λ people. AreTogether (everybody.now.note ∷ []) people.clients.items) }
    {
        Ok(People {
            clients: clients(alloc, everybody, USERS.as_slice(), rogues)?,
            twins: clients(alloc, everybody, USERS.as_slice(), rogues)?,
        })
    }

    /// What is sent for a step, or why nothing.
    pub fn ask(&mut self, alloc: Global, by: By, step: Step) -> Result<Result<Sent, Decline>, Fail>
        ensures { (notes : List WallNote) → AreTogether notes self.old.clients.items
            → OnOk result (AreTogether notes self.new.clients.items) }
    {
        if by.place >= self.clients.len() || by.place >= self.twins.len() {
            return Err("no such client".into());
        }
        if by.twin {
            return ask(alloc, &mut self.twins[by.place], step);
        }
        ask(alloc, &mut self.clients[by.place], step)
    }

    /// What is made of a reply to what was sent.
    pub fn take(
        &mut self,
        alloc: Global,
        by: By,
        sent: &Sent,
        reply: &[u8],
    ) -> Result<Outcome, Fail>
        ensures { (notes : List WallNote) → AreTogether notes self.old.clients.items
            → OnOk result (AreTogether notes self.new.clients.items) }
    {
        if by.place >= self.clients.len() || by.place >= self.twins.len() {
            return Err("no such client".into());
        }
        if by.twin {
            return take(alloc, &mut self.twins[by.place], sent, reply);
        }
        take(alloc, &mut self.clients[by.place], sent, reply)
    }

    /// What is kept of the users when their clients end.
    pub fn end(self, alloc: Global, note: WallNote) -> Result<World, Fail>
        requires { AreTogether (note ∷ []) self.clients.items }
        ensures { IfOk result (Kept D.digest_of) }
    {
        let mut notes = Log::empty(alloc);
        notes.push(note)?;
        Ok(world_of(alloc, self.clients, notes)?)
    }
}
