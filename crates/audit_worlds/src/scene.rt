//! Users at two servers, and the world that they leave.
ghost use Rattle.std.specs.Prelude.{◌≡◌, [], ◌∷◌, IfOk, OnOk};
ghost use Rattle.std.specs.List.{All};
ghost use Rattle.hall_server.specs.Seating.{IsSeatsOf};
ghost use Rattle.world_book.specs.Kept.{Kept};
ghost use Rattle.run_end.specs.Ends.{AreTogether};

use crate::halls::{Halls, Via, opened};
use crate::people::{By, People};
use crate::steps::{Outcome, Step};
use fr_digest::Digester;
use op_types::Op;
use std::alloc::Global;
use std::process::Abort;
use std::sync::Wait;
use std::test::Fail;
use world_book::{WallNote, World};

/// Clients and servers of the wall.
#[derive(Drop)]
pub struct Scene<D: Digester> {
    people: People<D>,
    halls: Halls<D>,
    note: WallNote,
    forged: Option<Op>,
}

/// Who does what at which server, and what comes of it.
pub type Row = (By, Via, Step, Outcome);

/// What a scene leaves.
#[derive(Drop)]
pub struct Left {
    /// What is kept of the users.
    pub world: World,
    /// The last operation that a twin signed.
    pub forged: Option<Op>,
}

impl<D: Digester> Scene<D> {
    /// The beginning: at most f users may be in league with a server, and these users' clients may do as they like.
    pub fn open(alloc: Global, f: u32, rogues: &[u8]) -> Result<Scene<D>, Fail>
        ensures first { IfOk result (λ s. All (IsSeatsOf D.digest_of s.halls.first.server) s.halls.first.all.items) }
        ensures second { IfOk result (λ s. All (IsSeatsOf D.digest_of s.halls.second.server)
            s.halls.second.all.items) }
        ensures together { IfOk result (λ s. AreTogether (s.note ∷ []) s.people.clients.items) }
    {
        let (halls, everybody) = opened(alloc, f)?;
        Ok(Scene {
            people: People::of(alloc, &everybody, rogues)?,
            halls,
            note: everybody.note,
            forged: None,
        })
    }

    // Somebody does this.
    fn act<R: Wait>(
        &mut self,
        rt: &R,
        alloc: Global,
        by: By,
        via: Via,
        step: Step,
    ) -> Result<Outcome, Fail>
        requires first { All (IsSeatsOf D.digest_of self.old.halls.first.server) self.old.halls.first.all.items }
        requires second { All (IsSeatsOf D.digest_of self.old.halls.second.server) self.old.halls.second.all.items }
        requires together { AreTogether (self.old.note ∷ []) self.old.people.clients.items }
        ensures first { OnOk result (All (IsSeatsOf D.digest_of self.new.halls.first.server)
            self.new.halls.first.all.items) }
        ensures second { OnOk result (All (IsSeatsOf D.digest_of self.new.halls.second.server)
            self.new.halls.second.all.items) }
        ensures together { OnOk result (AreTogether (self.new.note ∷ []) self.new.people.clients.items) }
    {
        let sent = match self.people.ask(alloc, by, step)? {
            Err(why) => return Ok(Outcome::Declined { why }),
            Ok(sent) => sent,
        };
        let reply = self
            .halls
            .answer(rt, via, by.place, sent.request.as_slice())?;
        let outcome = self.people.take(alloc, by, &sent, reply.as_slice())?;
        if by.twin {
            self.forged = sent.signed;
        }
        Ok(outcome)
    }

    /// Whether all that is done comes out so.
    pub fn run<R: Wait + Abort>(&mut self, rt: &R, alloc: Global, rows: &[Row]) -> Result<(), Fail>
        requires first { All (IsSeatsOf D.digest_of self.old.halls.first.server) self.old.halls.first.all.items }
        requires second { All (IsSeatsOf D.digest_of self.old.halls.second.server) self.old.halls.second.all.items }
        requires together { AreTogether (self.old.note ∷ []) self.old.people.clients.items }
        ensures first { OnOk result (All (IsSeatsOf D.digest_of self.new.halls.first.server)
            self.new.halls.first.all.items) }
        ensures second { OnOk result (All (IsSeatsOf D.digest_of self.new.halls.second.server)
            self.new.halls.second.all.items) }
        ensures together { OnOk result (AreTogether (self.new.note ∷ []) self.new.people.clients.items) }
    {
        for (i, (by, via, step, expected)) in rows.iter().enumerate() {
            let outcome = self.act(rt, alloc, *by, *via, *step)?;
            assert_eq!(rt; outcome, *expected, "row {i}");
        }
        Ok(())
    }

    /// What is left when the clients end.
    pub fn end(self, alloc: Global) -> Result<Left, Fail>
        requires { AreTogether (self.note ∷ []) self.people.clients.items }
        ensures { IfOk result (λ left. Kept D.digest_of left.world) }
    {
        let Scene {
            people,
            halls: _,
            note,
            forged,
        } = self;
        Ok(Left {
            world: people.end(alloc, note)?,
            forged,
        })
    }
}
