ghost use Rattle.std.specs.Prelude.{◌≡◌, [], ◌∷◌, ◌++◌, List, length, OnOk, OnErr};

use fr_bytes::NoMemory;
use std::alloc::Global;
use std::marker::Model;

/// A list that grows at its end, which contracts see as a list and nothing more. It keeps the allocator that it was made
/// with.
#[derive(Debug, Drop)]
pub struct Log<T> {
    items: Vec<T>,
}

impl<T> Model for Log<T> {
    ghost use Rattle.std.specs.Prelude.{List};
    ghost use Rattle.std.specs.Coded.{coded_list};

    ghost Value = { List T };

    ghost coded = { coded_list T.code };

    ghost view = { λ log. log.items.items };
}

impl<T> Log<T> {
    /// The empty list. Takes no memory.
    pub fn empty(alloc: Global) -> Log<T>
        ensures { result ≡ [] }
    {
        Log {
            items: Vec::new(alloc),
        }
    }

    /// The values, in order. Takes no memory.
    pub fn as_slice(&self) -> &[T]
        ensures { result.now ≡ self.now }
    {
        self.items.as_slice()
    }

    /// How many values there are.
    pub fn len(&self) -> usize
        ensures { result ≡ length self.now }
    {
        self.items.len()
    }
}

impl<T: Drop> Log<T> {
    /// Adds a value as the last.
    ///
    /// # Errors
    /// `NoMemory`. The list is then as before, and the value is dropped.
    pub fn push(&mut self, value: T) -> Result<(), NoMemory>
        ensures added { OnOk result (self.new ≡ self.old ++ value ∷ []) }
        ensures unchanged { OnErr result (self.new ≡ self.old) }
    {
        self.items.push(value)?;
        Ok(())
    }

    /// Takes the last value away, if there is one.
    pub fn drop_last(&mut self)
        ensures last { (front : List T) (last : T) → self.old ≡ front ++ last ∷ [] → self.new ≡ front }
        ensures empty { self.old ≡ [] → self.new ≡ [] }
    {
        self.items.pop();
    }

    /// Puts a value in the place of the last, if there is one. Takes no memory.
    pub fn replace_last(&mut self, value: T)
        ensures last { (front : List T) (last : T) → self.old ≡ front ++ last ∷ [] → self.new ≡ front ++ value ∷ [] }
        ensures empty { self.old ≡ [] → self.new ≡ [] }
    {
        let count = self.items.len();
        if count > 0 {
            self.items[count - 1] = value;
        }
    }
}
