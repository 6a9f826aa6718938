ghost use Rattle.hist_tree.specs.Chunks.{IsChunked, joined};
ghost use Rattle.hist_tree.specs.Nodes.{node_texts};
ghost use Rattle.hist_tree.specs.declared.limits.TheConstants.{CHUNK_ITEMS, CHUNK_LEVELS};
ghost use Rattle.std.specs.Arc.{arc_value};
ghost use Rattle.std.specs.Prelude.{◌≡◌, ◌+◌, ◌*◌, ◌/◌, ◌%◌, ◌^◌, ◌<◌, ◌≤◌, [], ◌∷◌, ◌++◌, ◌↔◌, IfOk, IsTrue, Some};
ghost use Rattle.std.specs.Prelude.{drop, length, map, slice_get, take};
ghost use Rattle.tree_model.specs.History.{depth, part, root};

use crate::chunk::{Chunk, leaves};
use crate::limits::{CHUNK_ITEMS, CHUNK_LEVELS};
use crate::shared::shared;
use fr_bytes::NoMemory;
use fr_digest::{Dig, Digester};
use std::alloc::Global;
use std::marker::{Model, PhantomData};
use std::sync::Arc;
use tree_model::{HasText, depth_of, left_leaves};

/// A history of items, of which contracts see the list. The tree of its version `v` is that of the texts of its
/// first `v` items, under the digest `D`.
///
/// It is persistent: a call that adds an item gives a new history and leaves the old one. A history keeps the
/// allocator that the empty one was made with.
#[derive(Drop)]
pub struct Hist<D: Digester, T: HasText + Drop> {
    chunks: Vec<Arc<Chunk<D, T>>>,
    count: u64,
    digester: PhantomData<D>,
}

impl<D: Digester, T: HasText + Drop> Model for Hist<D, T> {
    ghost use Rattle.hist_tree.specs.Chunks.{IsChunked, joined};
    ghost use Rattle.std.specs.Arc.{arc_value};
    ghost use Rattle.std.specs.Coded.{coded_list};
    ghost use Rattle.std.specs.Prelude.{List, map};

    ghost Value = { List T };

    ghost coded = { coded_list T.code };

    ghost view = { λ h. joined (map (λ a. arc_value a) h.chunks.items) };

    ghost invariant = { λ h. IsChunked (map (λ a. arc_value a) h.chunks.items) h.count };
}

/// Whether the node of height `level` whose positions begin at `start`, in version `size`, is a whole subtree of a
/// chunk.
fn is_kept(size: u64, level: u32, start: u64) -> bool
    requires { start < size }
    ensures { IsTrue result ↔ ((level ≤ CHUNK_LEVELS) × (start + 2 ^ level ≤ size)) }
{
    level <= CHUNK_LEVELS && leaves(level) as u64 <= size - start
}

impl<D: Digester, T: HasText + Drop> Hist<D, T> {
    /// The history of no items. Takes no memory.
    pub fn empty(alloc: Global) -> Hist<D, T>
        ensures { result ≡ [] }
    {
        Hist {
            chunks: Vec::new(alloc),
            count: 0,
            digester: PhantomData,
        }
    }

    /// How many items there are. Takes no memory.
    pub fn size(&self) -> u64
        ensures { result ≡ length self.now }
    {
        self.count
    }

    /// The same history, of which no item is copied: one count of owners rises for each 32 items. `NoMemory` also
    /// stands for a refused count.
    pub fn share(&self) -> Result<Hist<D, T>, NoMemory>
        ensures { IfOk result (λ h. h ≡ self.now) }
    {
        Ok(Hist {
            chunks: shared(*self.chunks.allocator(), &self.chunks)?,
            count: self.count,
            digester: PhantomData,
        })
    }

    /// The item at the position `k`, counted from 0. Takes no memory.
    pub fn item(&self, k: u64) -> &T
        requires { k < length self.now }
        ensures { slice_get self.now k ≡ Some result.now }
    {
        let place = k as usize;
        self.chunks[place / CHUNK_ITEMS].item(place % CHUNK_ITEMS)
    }

    /// The history with one item more. The last chunk and the list of chunks are made anew and the other chunks are
    /// shared, so no item is copied, and only the new leaf and the subtrees that it makes whole in its chunk are
    /// digested. On `NoMemory`, which also stands for a refused count of owners and for more than 2^64 - 1 items,
    /// the item is dropped.
    pub fn append(&self, item: T) -> Result<Hist<D, T>, NoMemory>
        ensures { IfOk result (λ h. h ≡ self.now ++ item ∷ []) }
    {
        let Some(count) = self.count.checked_add(1) else {
            return Err(NoMemory);
        };
        let alloc = *self.chunks.allocator();
        let full = self.full_chunks();
        let last = Arc::new(alloc, self.last_with(item)?)?;
        let mut chunks = shared(alloc, full)?;
        chunks.push(last)?;
        Ok(Hist {
            chunks,
            count,
            digester: PhantomData,
        })
    }

    /// The root of version `v`, read through this history. The digests of whole subtrees of chunks are read, so about
    /// one hash for each 32 items is made. Takes no memory.
    pub fn root_at(&self, v: u64) -> Dig
        requires some { 0 < v }
        requires within { v ≤ length self.now }
        ensures { result ≡ root D.digest_of (map T.text_of self.now) v }
    {
        self.node(v, depth_of(v), 0)
    }

    /// The digest of the node of height `level` whose positions begin at `start`, in version `size`. The digests of
    /// whole subtrees of chunks are read. Takes no memory.
    pub fn part(&self, size: u64, level: u32, start: u64) -> Dig
        requires version { size ≤ length self.now }
        requires within { start < size }
        requires aligned { start % 2 ^ level ≡ 0 }
        requires height { level ≤ depth size }
        ensures { result ≡ part D.digest_of level (node_texts size level start (map T.text_of self.now)) }
    {
        self.node(size, level, start)
    }

    /// The digest of a node, of any height that a `u64` can place.
    fn node(&self, size: u64, level: u32, start: u64) -> Dig
        requires version { size ≤ length self.now }
        requires within { start < size }
        requires aligned { start % 2 ^ level ≡ 0 }
        requires levels { level ≤ 64 }
        ensures { result ≡ part D.digest_of level (node_texts size level start (map T.text_of self.now)) }
    {
        if is_kept(size, level, start) {
            return self.whole(level, start);
        }
        let half = left_leaves(level) as u64;
        let left = self.node(size, level - 1, start);
        if size - start <= half {
            return D::tagged(1, &[], &left);
        }
        D::tagged(1, &left, &self.node(size, level - 1, start + half))
    }

    /// The digest of the whole subtree of height `level` that begins at the position `start`, within one chunk.
    fn whole(&self, level: u32, start: u64) -> Dig
        requires low { level ≤ CHUNK_LEVELS }
        requires aligned { start % 2 ^ level ≡ 0 }
        requires within { start + 2 ^ level ≤ length self.now }
        ensures { result ≡ part D.digest_of level (take (2 ^ level) (drop start (map T.text_of self.now))) }
    {
        let place = start as usize;
        self.chunks[place / CHUNK_ITEMS].whole(level, place % CHUNK_ITEMS)
    }

    /// The chunks that have all of their items.
    fn full_chunks(&self) -> &[Arc<Chunk<D, T>>]
        ensures pieces { IsChunked (map (λ a. arc_value a) result.now) (CHUNK_ITEMS * (length self.now / CHUNK_ITEMS)) }
        ensures items { joined (map (λ a. arc_value a) result.now)
            ≡ take (CHUNK_ITEMS * (length self.now / CHUNK_ITEMS)) self.now }
    {
        &self.chunks[..self.count as usize / CHUNK_ITEMS]
    }

    /// The chunk of the items behind the full chunks, with one more.
    fn last_with(&self, item: T) -> Result<Chunk<D, T>, NoMemory>
        ensures { IfOk result (λ c. c ≡ drop (CHUNK_ITEMS * (length self.now / CHUNK_ITEMS)) self.now ++ item ∷ []) }
    {
        match self.chunks.get(self.count as usize / CHUNK_ITEMS) {
            Some(last) => last.append(item),
            None => Chunk::empty(*self.chunks.allocator()).append(item),
        }
    }
}
