//! Entries of calls, each in memory that came with it.
ghost use Rattle.std.specs.Prelude.{◌≡◌, ◌++◌, ◌∷◌, [], IfSome, None, slice_get};
ghost use Rattle.std.specs.Option.{option_copied, option_to_list};

use fr_bytes::NoMemory;
use std::alloc::Global;
use std::marker::Model;
use std::mem;

/// Entries, the oldest first, which contracts see as their list.
///
/// An entry is added in memory that its `Room` brings along, so that adding can't fail. Dropping takes
/// one entry after the other, and needs no more stack for many of them than for one.
#[cycle(calls)]
pub struct Calls<E> {
    last: Link<E>,
}

#[cycle(calls)]
#[derive(Drop)]
enum Link<E> {
    End,
    After(E, Box<Calls<E>>),
}

/// Memory for one entry.
#[derive(Drop)]
pub struct Room<E: Drop> {
    place: Box<Calls<E>>,
}

impl<E: Drop> Room<E> {
    /// Memory for one entry. Err means want of memory.
    pub fn new(alloc: Global) -> Result<Room<E>, NoMemory> {
        let place = Box::new(alloc, Calls::new())?;
        Ok(Room { place })
    }
}

impl<E> Model for Calls<E> {
    ghost use Rattle.std.specs.Prelude.{◌≡◌, ◌++◌, ◌∷◌, [], List, length};
    ghost use Rattle.std.specs.Coded.{coded_list};

    ghost Value = { List E };

    ghost coded = { coded_list E.code };

    ghost use Rattle.hall_gate.specs.declared.calls.Link.TheVariants.{End, After};

    ghost view = { λ a. elim a.last [ End ↦ [] | After call before ↦ before.value ++ call ∷ [] ] };

    ghost size = { length };

    ghost use Rattle.std.proofs.Common.{arith, length-append};

    ghost size_decreases = { λ a h. Prim.grind (arith, length-append) };
}

impl<E: Drop> Calls<E> {
    ghost use Rattle.hall_gate.specs.declared.calls.Link.TheVariants.{End, After};

    /// No entries. Takes no memory.
    pub fn new() -> Calls<E>
        ensures { result ≡ [] }
    {
        Calls { last: Link::End }
    }

    /// Adds an entry at the end.
    pub fn add(&mut self, entry: E, room: Room<E>)
        ensures { self.new ≡ self.old ++ entry ∷ [] }
    {
        let Room { mut place } = room;
        let before = mem::replace(self, Calls::new());
        Box::replace(&mut place, before);
        *self = Calls::after(entry, place);
    }

    /// Takes the last entry off, where there is one.
    pub fn pop(&mut self) -> Option<E>
        ensures taken { self.old ≡ self.new ++ option_to_list result }
        ensures none { result ≡ None → self.old ≡ [] }
    {
        let whole = mem::replace(self, Calls::new());
        match whole.into_last() {
            Link::End => None,
            Link::After(entry, before) => {
                *self = Box::into_inner(before);
                Some(entry)
            }
        }
    }

    /// The entry at place `i`, counted from 0, and `None` exactly where there is none. It goes over the entries from
    /// the newest on. Takes no memory.
    pub fn get(&self, i: u64) -> Option<&E>
        ensures { option_copied result ≡ slice_get self.now i }
    {
        // `at` keeps `i` entries more than `first`.
        let mut first = self;
        for _ in 0..i {
            let (_, before) = first.parts()?;
            first = before;
        }
        let mut at = self;
        let mut found = None;
        while let Some((_, before)) = first.parts() {
            let (entry, earlier) = at.parts()?;
            found = Some(entry);
            first = before;
            at = earlier;
        }
        found
    }

    /// The newest entry, and the entries before it.
    fn parts(&self) -> Option<(&E, &Calls<E>)>
        ensures none { result ≡ None → self.now ≡ [] }
        ensures parts { IfSome result (λ p. self.now ≡ p.1.now ++ p.0.now ∷ []) }
    {
        match &self.last {
            Link::End => None,
            Link::After(entry, before) => Some((entry, before)),
        }
    }

    fn after(entry: E, before: Box<Calls<E>>) -> Calls<E>
        ensures { result ≡ before.value ++ entry ∷ [] }
    {
        Calls {
            last: Link::After(entry, before),
        }
    }

    fn into_last(self) -> Link<E>
        ensures { self ≡ elim result [ End ↦ [] | After entry before ↦ before.value ++ entry ∷ [] ] }
    {
        let Calls { last } = self;
        last
    }
}

impl<E: Drop> Drop for Calls<E> {
    fn drop(self) {
        let mut link = self.into_last();
        while let Link::After(_entry, before) = link {
            link = Box::into_inner(before).into_last();
        }
    }
}
