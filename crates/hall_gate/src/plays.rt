//! What each step on the lock tells.
ghost use Rattle.hall_gate.specs.Knowing.{spent};
ghost use Rattle.hall_gate.specs.Plays.{opens, draws, fills, waits, serves, meets, undealt, dealt, noted, joined};

use super::rule::View;
use super::turned::Turned;
use atomic_table::{Join, Play, Split};
use std::marker::PhantomData;

pub struct Open;

impl<T, F, E> Play<Option<T>, View<F, E>> for Open {
    ghost then = { opens };
}

pub struct Fill<T> {
    value: PhantomData<T>,
}

impl<T: Turned> Play<Option<T>, View<T::Fixed, T::Entry>> for Fill<T> {
    ghost then = { fills T.fixed };
}

pub struct Draw;

impl<T, F, E> Play<Option<T>, View<F, E>> for Draw {
    ghost then = { draws };
}

pub struct Await<T> {
    value: PhantomData<T>,
}

impl<T: Turned> Play<Option<T>, View<T::Fixed, T::Entry>> for Await<T> {
    ghost then = { waits T.valid T.fixed T.entries T.caller };
}

pub struct Serve<T> {
    value: PhantomData<T>,
}

impl<T: Turned> Play<Option<T>, View<T::Fixed, T::Entry>> for Serve<T> {
    ghost then = { serves T.entries };
}

pub struct Meet<T> {
    value: PhantomData<T>,
}

impl<T: Turned> Play<Option<T>, View<T::Fixed, T::Entry>> for Meet<T> {
    ghost then = { meets T.legal T.caller };
}

pub struct Deal;

impl<F, E> Split<View<F, E>> for Deal {
    ghost left = { undealt };

    ghost right = { dealt };
}

pub struct Note;

impl<F, E> Split<View<F, E>> for Note {
    ghost left = { λ v. v };

    ghost right = { noted };
}

pub struct Gather;

impl<F, E> Join<View<F, E>> for Gather {
    ghost both = { joined };

    ghost spent = { spent };
}
