//! Clients at the seats of a server.
ghost use Rattle.std.specs.Prelude.{IfOk, OnOk};
ghost use Rattle.std.specs.List.{All};
ghost use Rattle.hall_server.specs.Seating.{IsSeatsOf};

use crate::steps::{Heard, Outcome, Step, exchange, lose, needs, read, relearn, told};
use crate::wall::{Setup, clients, opened};
use client_core::{Client, Sent};
use fr_bytes::Bytes;
use fr_digest::Digester;
use hall_server::{Seats, Server};
use std::alloc::Global;
use std::process::Abort;
use std::sync::Wait;
use std::test::Fail;

/// A server's seats, and as many clients or fewer, each of which sends from the seat at its place.
#[derive(Drop)]
pub struct Scene<D: Digester> {
    server: Server<D>,
    all: Vec<Seats<D>>,
    clients: Vec<Client<D>>,
}

/// The place of a client, what it is to do, and what comes of it.
pub type Row = (usize, Step, Outcome);

impl<D: Digester> Scene<D> {
    /// Clients that begin so, at the seats of a server of a wall without leaves.
    pub fn open(alloc: Global, setups: &[Setup]) -> Result<Scene<D>, Fail>
        ensures { IfOk result (λ scene. All (IsSeatsOf D.digest_of scene.server) scene.all.items) }
    {
        let (server, all, key) = opened::<D>(alloc)?;
        let clients = clients(alloc, key, setups)?;
        Ok(Scene {
            server,
            all,
            clients,
        })
    }

    /// A client does this.
    pub fn act<R: Wait>(
        &mut self,
        rt: &R,
        alloc: Global,
        place: usize,
        step: Step,
    ) -> Result<Heard, Fail>
        requires { All (IsSeatsOf D.digest_of self.old.server) self.old.all.items }
        ensures { OnOk result (All (IsSeatsOf D.digest_of self.new.server) self.new.all.items) }
    {
        if place >= self.all.len() || place >= self.clients.len() {
            return Err("no such place".into());
        }
        let seats = &mut self.all[place];
        exchange(
            rt,
            alloc,
            &self.server,
            seats,
            &mut self.clients[place],
            step,
        )
    }

    /// A client does this, and the reply is lost.
    pub fn lose<R: Wait>(
        &mut self,
        rt: &R,
        alloc: Global,
        place: usize,
        step: Step,
    ) -> Result<(), Fail>
        requires { All (IsSeatsOf D.digest_of self.old.server) self.old.all.items }
        ensures { OnOk result (All (IsSeatsOf D.digest_of self.new.server) self.new.all.items) }
    {
        if place >= self.all.len() || place >= self.clients.len() {
            return Err("no such place".into());
        }
        let seats = &mut self.all[place];
        lose(
            rt,
            alloc,
            &self.server,
            seats,
            &mut self.clients[place],
            step,
        )
    }

    /// Whether a client holds fewer changes than there are, before and after it learns them anew.
    pub fn mend<R: Wait>(
        &mut self,
        rt: &R,
        alloc: Global,
        place: usize,
    ) -> Result<(bool, bool), Fail>
        requires { All (IsSeatsOf D.digest_of self.old.server) self.old.all.items }
        ensures { OnOk result (All (IsSeatsOf D.digest_of self.new.server) self.new.all.items) }
    {
        if place >= self.all.len() || place >= self.clients.len() {
            return Err("no such place".into());
        }
        let client = &mut self.clients[place];
        let before = needs(client)?;
        relearn(rt, alloc, &self.server, &mut self.all[place], client)?;
        Ok((before, needs(client)?))
    }

    /// What a client reads of the operation that was sent.
    pub fn read(&self, alloc: Global, place: usize, sent: &Sent) -> Result<Option<Bytes>, Fail> {
        match self.clients.get(place) {
            Some(client) => read(alloc, client, sent),
            None => Err("no such place".into()),
        }
    }

    /// The clients.
    pub fn into_clients(self) -> Vec<Client<D>> {
        let Scene {
            server: _,
            all: _,
            clients,
        } = self;
        clients
    }

    /// Whether all that is done comes out so.
    pub fn run<R: Wait + Abort>(&mut self, rt: &R, alloc: Global, rows: &[Row]) -> Result<(), Fail>
        requires { All (IsSeatsOf D.digest_of self.old.server) self.old.all.items }
        ensures { OnOk result (All (IsSeatsOf D.digest_of self.new.server) self.new.all.items) }
    {
        for (i, (place, step, expected)) in rows.iter().enumerate() {
            let heard = self.act(rt, alloc, *place, *step)?;
            assert_eq!(rt; told(&heard), *expected, "row {i}");
        }
        Ok(())
    }
}
