ghost use Rattle.std.specs.Prelude.{◌≡◌, ◌++◌, ◌∷◌, [], length, vec_len, IfOk, OnOk, OnErr};

use super::refusals::NoMemory;
use std::marker::Model;

/// A list of values, which contracts see as a list and nothing more.
///
/// Each list or byte field of a record of the project has this type: contracts then compare lists,
/// and never capacities or places in memory. It keeps the allocator of the `Vec` that it was made of.
#[derive(Debug, Drop)]
pub struct Sequence<T> {
    items: Vec<T>,
}

/// A list of bytes.
pub type Bytes = Sequence<u8>;

/// A list of byte lists.
pub type Texts = Sequence<Bytes>;

impl<T> Model for Sequence<T> {
    ghost use Rattle.std.specs.Prelude.{List};
    ghost use Rattle.std.specs.Coded.{coded_list};

    ghost Value = { List T };

    ghost coded = { coded_list T.code };

    ghost view = { λ s. s.items.items };
}

impl<T> Sequence<T> {
    /// The list of the values of `items`. Takes no memory.
    pub fn of(items: Vec<T>) -> Self
        ensures { result ≡ items.items }
    {
        Sequence { items }
    }

    /// The values, in order. Takes no memory.
    pub fn as_slice(&self) -> &[T]
        ensures { result.now ≡ self.now }
    {
        self.items.as_slice()
    }

    /// The `Vec` of the same values, given back. Takes no memory.
    pub fn into_vec(self) -> Vec<T>
        ensures { result.items ≡ self }
    {
        self.items
    }

    /// How many values there are.
    pub fn len(&self) -> usize
        ensures { result ≡ length self.now }
    {
        self.items.len()
    }
}

impl<T: Copy> Sequence<T> {
    /// The same values, in memory of the same allocator.
    pub fn copy(&self) -> Result<Sequence<T>, NoMemory>
        ensures { IfOk result (λ same. same ≡ self.now) }
    {
        let alloc = *self.items.allocator();
        Ok(Sequence::of(Vec::from_slice(alloc, self.items.as_slice())?))
    }
}

impl<T: PartialEq> PartialEq for Sequence<T> {
    ghost use Rattle.std.specs.Cmp.Lexicographic.{pointwise, lists_per};

    ghost eq = { λ x y. pointwise T.eq x y };

    ghost laws = { lists_per T.laws };

    fn eq(&self, other: &Self) -> bool {
        self.items.as_slice() == other.items.as_slice()
    }
}

impl<T: Eq> Eq for Sequence<T> {
    ghost use Rattle.std.specs.Cmp.Lexicographic.{lists_equiv};

    ghost laws = { lists_equiv T.Eq.laws };
}
