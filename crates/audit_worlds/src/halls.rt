//! Two servers of the wall, which tell each other nothing.
ghost use Rattle.std.specs.Prelude.{◌≡◌, [], ◌∷◌, ℕ, map, IfOk, OnOk};
ghost use Rattle.std.specs.List.{All};
ghost use Rattle.lms_tree.specs.Valid.{Key};
ghost use Rattle.hall_server.specs.Seating.{IsSeatsOf};

use crate::wall::{Everybody, empty};
use fr_bytes::Bytes;
use fr_digest::Digester;
use hall_core::Hall;
use hall_server::{Seats, Server};
use std::alloc::Global;
use std::sync::Wait;
use std::test::Fail;

/// Which of them has a request.
#[derive(Clone, Copy)]
pub enum Via {
    First,
    Second,
}

/// A server, and each user's seats there, in the users' order.
#[derive(Drop)]
pub struct Host<D: Digester> {
    pub server: Server<D>,
    pub all: Vec<Seats<D>>,
}

impl<D: Digester> Host<D> {
    fn of(alloc: Global, hall: Hall<D>) -> Result<Host<D>, Fail>
        requires { hall.entries ≡ [] }
        ensures { IfOk result (λ host. All (IsSeatsOf D.digest_of host.server) host.all.items) }
    {
        let mut halls = Vec::new(alloc);
        halls.push(hall)?;
        let (server, all) = Server::make(halls, [1, 2, 3, 4].as_slice())?;
        Ok(Host { server, all })
    }

    // The reply to the request of the user at this place.
    fn answer<R: Wait>(&mut self, rt: &R, place: usize, request: &[u8]) -> Result<Bytes, Fail>
        requires { All (IsSeatsOf D.digest_of self.old.server) self.old.all.items }
        ensures { OnOk result (All (IsSeatsOf D.digest_of self.new.server) self.new.all.items) }
    {
        if place >= self.all.len() {
            return Err("no such seats".into());
        }
        Ok(self.server.answer(rt, &mut self.all[place], request)?)
    }
}

/// Both servers.
#[derive(Drop)]
pub struct Halls<D: Digester> {
    pub first: Host<D>,
    pub second: Host<D>,
}

/// Servers of the wall without leaves, which have one key, and what everybody knows of them.
pub fn opened<D: Digester>(alloc: Global, f: u32) -> Result<(Halls<D>, Everybody), Fail>
    ensures first { IfOk result (λ r. All (IsSeatsOf D.digest_of r.0.first.server) r.0.first.all.items) }
    ensures second { IfOk result (λ r. All (IsSeatsOf D.digest_of r.0.second.server) r.0.second.all.items) }
    ensures keys { IfOk result (λ r. map (λ (p : ℕ × Key). p.0) r.1.keys ≡ 1 ∷ 2 ∷ 3 ∷ 4 ∷ []) }
{
    let (first, everybody) = empty(alloc, f)?;
    let (second, _) = empty(alloc, f)?;
    let halls = Halls {
        first: Host::of(alloc, first)?,
        second: Host::of(alloc, second)?,
    };
    Ok((halls, everybody))
}

impl<D: Digester> Halls<D> {
    /// The reply to the request of the user at this place.
    pub fn answer<R: Wait>(
        &mut self,
        rt: &R,
        via: Via,
        place: usize,
        request: &[u8],
    ) -> Result<Bytes, Fail>
        requires first { All (IsSeatsOf D.digest_of self.old.first.server) self.old.first.all.items }
        requires second { All (IsSeatsOf D.digest_of self.old.second.server) self.old.second.all.items }
        ensures first { OnOk result (All (IsSeatsOf D.digest_of self.new.first.server) self.new.first.all.items) }
        ensures second { OnOk result (All (IsSeatsOf D.digest_of self.new.second.server) self.new.second.all.items) }
    {
        match via {
            Via::First => self.first.answer(rt, place, request),
            Via::Second => self.second.answer(rt, place, request),
        }
    }
}
