ghost use Rattle.std.specs.Prelude.{◌≡◌, ◌↔◌, IsSome, IfSome};

use crate::digests::Digester;
use std::marker::{Model, PhantomData};

/// Two different byte strings of equal digest under `D`: whoever holds one has a collision.
#[derive(Drop)]
pub struct Clash<D: Digester> {
    first: Vec<u8>,
    second: Vec<u8>,
    digester: PhantomData<D>,
}

impl<D: Digester> Model for Clash<D> {
    ghost use Rattle.fr_digest.specs.Collision.{Strings, Collides};

    ghost Value = { Strings };

    ghost view = { λ c. record { a = c.first.items; b = c.second.items } };

    ghost invariant = { λ c. Collides D.digest_of (record { a = c.first.items; b = c.second.items }) };
}

impl<D: Digester> Clash<D> {
    ghost use Rattle.fr_digest.specs.Collision.{Strings, Collides};

    /// The two strings, where they differ and have one digest, and else `None`. Takes no memory.
    pub fn new(a: Vec<u8>, b: Vec<u8>) -> Option<Clash<D>>
        ensures exactly { IsSome result ↔ Collides D.digest_of (record { a = a.items; b = b.items }) }
        ensures keeps { IfSome result (λ clash. clash ≡ record { a = a.items; b = b.items }) }
    {
        if a.as_slice() == b.as_slice() || D::digest(&a) != D::digest(&b) {
            return None;
        }
        Some(Clash {
            first: a,
            second: b,
            digester: PhantomData,
        })
    }

    /// The first string.
    pub fn a(&self) -> &[u8]
        ensures value { result.now ≡ self.now.a }
        ensures collides { Collides D.digest_of self.now }
    {
        &self.first
    }

    /// The second string.
    pub fn b(&self) -> &[u8]
        ensures value { result.now ≡ self.now.b }
        ensures collides { Collides D.digest_of self.now }
    {
        &self.second
    }
}
