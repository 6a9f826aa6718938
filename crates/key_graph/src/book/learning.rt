ghost use Rattle.key_graph.specs.Held.{book_of, in_place};
ghost use Rattle.key_graph.specs.NodeKeys.{key_in};
ghost use Rattle.key_graph.specs.KeyBook.{book_root, child_key, learnt, new_book, opened_all, slot_after};
ghost use Rattle.op_types.specs.Kinds.{is_change};
ghost use Rattle.std.specs.Prelude.{◌≡◌, ◌≤◌, ℕ, length, true, IfOk, OnErr, OnOk};

use super::KeyBook;
use crate::history::{root_generation, slots};
use crate::node_keys::{NodeKey, NodeKeys, find_key, is_slot, put_key, wraps_in};
use fr_bytes::NoMemory;
use fr_digest::Dig;
use op_types::{Kind, Wrap};
use std::alloc::Global;
use std::collections::BTreeMap;

impl KeyBook {
    /// The book of a user who learnt nothing yet: it holds the user's leaf key alone. `depth`, 1 to 6, is the wall's
    /// key tree's.
    pub fn make(
        alloc: Global,
        wall: u32,
        depth: u8,
        user: u32,
        leaf: Dig,
    ) -> Result<KeyBook, NoMemory>
        requires { (1 ≤ depth) × (depth ≤ 6) }
        ensures { IfOk result (λ book. book_of book ≡ new_book wall depth user leaf) }
    {
        Ok(KeyBook {
            wall,
            depth,
            user,
            leaf,
            slot: None,
            keys: BTreeMap::new(alloc),
            epochs: Vec::new(alloc),
        })
    }

    /// The book of the same user who learnt nothing yet. Takes no memory.
    pub fn fresh(&self) -> KeyBook
        ensures { book_of result ≡ new_book self.now.wall self.now.depth self.now.user self.now.leaf }
    {
        KeyBook {
            wall: self.wall,
            depth: self.depth,
            user: self.user,
            leaf: self.leaf,
            slot: None,
            keys: BTreeMap::new(*self.epochs.allocator()),
            epochs: Vec::new(*self.epochs.allocator()),
        }
    }

    /// The same book, in memory of the same allocator.
    pub fn copy(&self) -> Result<KeyBook, NoMemory>
        ensures { IfOk result (λ same. book_of same ≡ book_of self.now) }
    {
        Ok(KeyBook {
            wall: self.wall,
            depth: self.depth,
            user: self.user,
            leaf: self.leaf,
            slot: self.slot,
            keys: self.keys.clone()?,
            epochs: Vec::from_slice(*self.epochs.allocator(), self.epochs.as_slice())?,
        })
    }

    /// How many changes were learnt. Takes no memory.
    pub fn changes(&self) -> u64
        ensures { result ≡ length (book_of self.now).epochs }
    {
        self.epochs.len() as u64
    }

    // The keys that are held of a generation.
    fn of_generation(&self, gen_: u32) -> &[NodeKey]
        ensures { (x : ℕ) → key_in x result.now ≡ (book_of self.now).keys x gen_ }
    {
        match self.keys.get(&gen_) {
            Some(keys) => keys.as_slice(),
            None => &[],
        }
    }

    // The user's slot after a change.
    fn slot_after(&self, kind: &Kind) -> Option<u8>
        ensures { result ≡ slot_after self.now.user self.now.slot kind.now }
    {
        let (user, slot, admits) = match kind {
            Kind::Post { .. } => return self.slot,
            Kind::Admit { user, slot, .. } => (*user, *slot, true),
            Kind::Remove { user, slot, .. } => (*user, *slot, false),
        };
        if user == self.user {
            return if admits { Some(slot) } else { None };
        }
        if self.slot == Some(slot) {
            None
        } else {
            self.slot
        }
    }

    // The key that a wrap names, in a book with this slot, and with these keys of the generation `gen_` in place of its
    // own.
    fn child_key(&self, slot: Option<u8>, gen_: u32, fresh: &[NodeKey], wrap: &Wrap) -> Option<Dig>
        ensures { result ≡ child_key self.now.depth self.now.leaf slot (in_place (book_of self.now).keys gen_ fresh.now) wrap.now.child wrap.now.child_gen }
    {
        let first = u32::from(slots(self.depth));
        if wrap.child < first {
            if wrap.child_gen == gen_ {
                find_key(fresh, wrap.child)
            } else {
                find_key(self.of_generation(wrap.child_gen), wrap.child)
            }
        } else if is_slot(slot, wrap.child - first) && wrap.child_gen == 0 {
            Some(self.leaf)
        } else {
            None
        }
    }

    // The keys of the generation `gen_` after these wraps of a change of it, taken in order.
    fn opened(&self, slot: Option<u8>, gen_: u32, wraps: &[Wrap]) -> Result<Vec<NodeKey>, NoMemory>
        ensures { IfOk result (λ fresh. (x : ℕ) → key_in x fresh.items ≡ opened_all self.now.depth self.now.leaf slot gen_ (book_of self.now).keys wraps.now x gen_) }
    {
        let mut fresh = Vec::from_slice(*self.epochs.allocator(), self.of_generation(gen_))?;
        for wrap in wraps {
            if let Some(key) = self.child_key(slot, gen_, &fresh, wrap) {
                put_key(&mut fresh, gen_, wrap, &key)?;
            }
        }
        Ok(fresh)
    }

    /// Learns the next change, an admission or a removal in the generation `gen_`: first the user's slot, and then the
    /// wraps, in order. Each whose child's key the book then holds gives its parent's key, in the place of one that was
    /// held by this name. Any wraps are taken, and any order of generations. On `NoMemory` the book is as before.
    pub fn learn(&mut self, gen_: u32, kind: &Kind) -> Result<(), NoMemory>
        requires { is_change kind.now ≡ true }
        ensures learnt { OnOk result (book_of self.new ≡ learnt (book_of self.old) gen_ kind.now) }
        ensures unchanged { OnErr result (book_of self.new ≡ book_of self.old) }
    {
        let slot = self.slot_after(kind);
        let fresh = self.opened(slot, gen_, wraps_in(kind))?;
        self.epochs.push(gen_)?;
        match self.keys.insert(gen_, NodeKeys::of(fresh)) {
            Ok(_old) => {
                self.slot = slot;
                Ok(())
            }
            Err(_refused) => {
                self.epochs.pop();
                Err(NoMemory)
            }
        }
    }

    /// The root key of an epoch, which the e-th learnt change began: `None` exactly where it was never learnt, as that
    /// of epoch 0. Takes no memory.
    pub fn root_key(&self, epoch: u64) -> Option<Dig>
        ensures { result ≡ book_root (book_of self.now) epoch }
    {
        if epoch == 0 {
            return None;
        }
        let gen_ = root_generation(&self.epochs, epoch)?;
        find_key(self.of_generation(gen_), 1)
    }
}
