ghost use Rattle.hist_tree.specs.Chunks.{Ends};
ghost use Rattle.hist_tree.specs.declared.limits.TheConstants.{CHUNK_ITEMS, CHUNK_LEVELS};
ghost use Rattle.std.specs.Prelude.{◌≡◌, ◌+◌, ◌%◌, ◌^◌, ◌<◌, ◌≤◌, [], ◌∷◌, ◌++◌, IfOk, Some, length, map};
ghost use Rattle.std.specs.Prelude.{drop, slice_get, take};
ghost use Rattle.tree_model.specs.History.{part};

use crate::limits::{CHUNK_ITEMS, CHUNK_LEVELS};
use crate::shared::shared;
use fr_bytes::NoMemory;
use fr_digest::{Dig, Digester};
use std::alloc::Global;
use std::marker::{Model, PhantomData};
use std::sync::Arc;
use tree_model::HasText;

/// An item, and the digests of the whole subtrees of its chunk that end with it: that of its leaf first, and each
/// further one is of twice as many items.
#[derive(Drop)]
pub(crate) struct Kept<T> {
    item: T,
    tops: Vec<Dig>,
}

/// At most 32 items in a row, which contracts see as their list, with the digest of each whole subtree over them.
#[derive(Drop)]
pub(crate) struct Chunk<D: Digester, T: HasText + Drop> {
    kept: Vec<Arc<Kept<T>>>,
    digester: PhantomData<D>,
}

impl<D: Digester, T: HasText + Drop> Model for Chunk<D, T> {
    ghost use Rattle.hist_tree.specs.Chunks.{Keeps};
    ghost use Rattle.std.specs.Arc.{arc_value};
    ghost use Rattle.std.specs.Coded.{coded_list};
    ghost use Rattle.std.specs.Prelude.{List, map};

    ghost Value = { List T };

    ghost coded = { coded_list T.code };

    ghost view = { λ c. map (λ k. k.item) (map (λ a. arc_value a) c.kept.items) };

    ghost invariant = { λ c. Keeps D.digest_of
        (map T.text_of (map (λ k. k.item) (map (λ a. arc_value a) c.kept.items)))
        (map (λ k. k.tops.items) (map (λ a. arc_value a) c.kept.items)) };
}

/// How many items a whole subtree of this height has.
pub(crate) fn leaves(level: u32) -> usize
    requires { level ≤ CHUNK_LEVELS }
    ensures { result ≡ 2 ^ level }
{
    1 << level
}

impl<D: Digester, T: HasText + Drop> Chunk<D, T> {
    /// The chunk of no items. Takes no memory.
    pub(crate) fn empty(alloc: Global) -> Chunk<D, T>
        ensures { result ≡ [] }
    {
        Chunk {
            kept: Vec::new(alloc),
            digester: PhantomData,
        }
    }

    /// The item at the place `k`.
    pub(crate) fn item(&self, k: usize) -> &T
        requires { k < length self.now }
        ensures { slice_get self.now k ≡ Some result.now }
    {
        &self.kept[k].item
    }

    /// The digest of the whole subtree of height `level` that begins at the place `start`. It is read, not computed.
    pub(crate) fn whole(&self, level: u32, start: usize) -> Dig
        requires low { level ≤ CHUNK_LEVELS }
        requires aligned { start % 2 ^ level ≡ 0 }
        requires within { start + 2 ^ level ≤ length self.now }
        ensures { result ≡ part D.digest_of level (take (2 ^ level) (drop start (map T.text_of self.now))) }
    {
        let last = &self.kept[start + leaves(level) - 1];
        last.tops[level as usize]
    }

    /// The digests of the whole subtrees that an item of this text ends behind these items, the lowest first.
    fn tops_with(&self, text: &[u8]) -> Result<Vec<Dig>, NoMemory>
        requires { length self.now < CHUNK_ITEMS }
        ensures { IfOk result (λ tops. Ends D.digest_of (map T.text_of self.now ++ text.now ∷ []) tops.items) }
    {
        let count = self.kept.len() + 1;
        let mut top = D::tagged(0, &[], text);
        let mut tops = Vec::new(*self.kept.allocator());
        tops.push(top)?;
        let mut level = 0;
        let mut width = 1;
        'double: while count % (2 * width) == 0 {
            let left = self.whole(level, count - 2 * width);
            top = D::tagged(1, &left, &top);
            tops.push(top)?;
            level += 1;
            width *= 2;
        }
        Ok(tops)
    }

    /// The chunk with one item more. The other items are shared, and their digests with them.
    pub(crate) fn append(&self, item: T) -> Result<Chunk<D, T>, NoMemory>
        requires { length self.now < CHUNK_ITEMS }
        ensures { IfOk result (λ c. c ≡ self.now ++ item ∷ []) }
    {
        let alloc = *self.kept.allocator();
        let tops = self.tops_with(item.text())?;
        let last = Arc::new(alloc, Kept { item, tops })?;
        let mut kept = shared(alloc, &self.kept)?;
        kept.push(last)?;
        Ok(Chunk {
            kept,
            digester: PhantomData,
        })
    }
}
