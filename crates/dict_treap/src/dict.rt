ghost use Rattle.std.specs.Prelude.{◌≡◌, ◌<◌, [], ◌∷◌, Some, None, IfOk, IsSome, length};
ghost use Rattle.tree_model.specs.AccessList.{IsRising, dict, entry_of, greater, smaller, top_of, with_entry, with_next, without};
ghost use Rattle.dict_treap.specs.Lists.{where_some};
ghost use Rattle.dict_treap.specs.Treap.{IsVersion, owned, part};
ghost use Rattle.pruned_list.specs.PrunedList.{PrunesDict, IsWhole, in_order};

use crate::changes;
use crate::node::{Node, Part, copy, over};
use fr_bytes::NoMemory;
use fr_digest::{Dig, Digester};
use std::alloc::Global;
use std::marker::Model;
use std::sync::Arc;
use tree_model::Entry;

/// An access list, which contracts see as the list of its entries: it has one at least, and the users
/// rise.
///
/// It is persistent: a call that changes it gives a new version and leaves the old one. A version keeps
/// the allocator that the first one was made with.
#[derive(Drop)]
pub struct Dict<D: Digester> {
    root: Arc<Node<D>>,
    alloc: Global,
}

impl<D: Digester> Model for Dict<D> {
    ghost use Rattle.dict_treap.specs.Treap.{IsVersion};
    ghost use Rattle.pruned_list.specs.PrunedList.{in_order};
    ghost use Rattle.std.specs.Arc.{arc_value};
    ghost use Rattle.std.specs.Prelude.{◌<◌, List, length};
    ghost use Rattle.tree_model.specs.declared.entry.Entry.{Entry};

    ghost Value = { List Entry };

    ghost view = { λ d. in_order (arc_value d.root) };

    ghost invariant = { λ d. (0 < length (in_order (arc_value d.root))) × IsVersion D.digest_of (arc_value d.root) };
}

impl<D: Digester> Dict<D> {
    /// The list of one entry.
    pub fn one(alloc: Global, entry: Entry) -> Result<Dict<D>, NoMemory>
        ensures { IfOk result (λ d. d ≡ entry ∷ []) }
    {
        Dict::of(alloc, over(alloc, entry, None, None)?)
    }

    /// The same list, of which no entry is copied. `NoMemory` stands for a refused count of owners.
    pub fn share(&self) -> Result<Dict<D>, NoMemory>
        ensures { IfOk result (λ d. d ≡ self.now) }
    {
        Ok(Dict {
            root: Arc::try_clone(&self.root)?,
            alloc: self.alloc,
        })
    }

    /// The entry of a user, and `None` exactly where there is none. Takes no memory.
    pub fn get(&self, user: u32) -> Option<Entry>
        ensures { result ≡ entry_of self.now user }
    {
        changes::find(Some(self.root()), user)
    }

    /// The digest of the list. Takes no memory.
    pub fn digest(&self) -> Dig
        ensures { result ≡ dict D.digest_of self.now }
    {
        self.root().digest()
    }

    /// The list with the entry of a user who has none yet.
    pub fn insert(&self, entry: Entry) -> Result<Dict<D>, NoMemory>
        requires absent { entry_of self.now entry.user ≡ None }
        ensures { IfOk result (λ d. d ≡ with_entry entry self.now) }
    {
        let root = changes::insert(self.alloc, Some(self.root()), entry)?;
        Dict::of(self.alloc, root)
    }

    /// The list without the entry of a user who isn't the only one.
    pub fn remove(&self, user: u32) -> Result<Dict<D>, NoMemory>
        requires present { IsSome (entry_of self.now user) }
        requires others { 1 < length self.now }
        ensures { IfOk result (λ d. d ≡ without user self.now) }
    {
        let root = changes::remove(self.alloc, Some(self.root()), user)?;
        Dict::of(self.alloc, root)
    }

    /// The list in which a user's next number is `next`.
    pub fn set_next(&self, user: u32, next: u32) -> Result<Dict<D>, NoMemory>
        requires present { IsSome (entry_of self.now user) }
        ensures { IfOk result (λ d. d ≡ with_next user next self.now) }
    {
        let root = changes::set_next(self.alloc, Some(self.root()), user, next)?;
        Dict::of(self.alloc, root)
    }

    /// The entry of greatest priority, and the lists of the smaller and of the greater users: `None`
    /// exactly where there are none. Nothing is hashed.
    pub fn top(&self) -> Result<(Entry, Option<Dict<D>>, Option<Dict<D>>), NoMemory>
        ensures entry { IfOk result (λ parts. top_of self.now ≡ Some parts.0) }
        ensures smaller { IfOk result (λ parts. parts.1 ≡ where_some (smaller parts.0.user self.now)) }
        ensures greater { IfOk result (λ parts. parts.2 ≡ where_some (greater parts.0.user self.now)) }
    {
        let root = self.root();
        let smaller = self.part(root.left())?;
        let greater = self.part(root.right())?;
        Ok((root.entry(), smaller, greater))
    }

    /// The root of the treap of the entries.
    pub fn root(&self) -> &Node<D>
        ensures whole { IsWhole result.now }
        ensures treap { PrunesDict D.digest_of result.now self.now }
        ensures entries { in_order result.now ≡ self.now }
        ensures rising { IsRising self.now }
    {
        &self.root
    }

    /// The list of a treap.
    fn of(alloc: Global, root: Part<D>) -> Result<Dict<D>, NoMemory>
        requires some { 0 < length (in_order (owned root)) }
        requires treap { IsVersion D.digest_of (owned root) }
        ensures { IfOk result (λ d. d ≡ in_order (owned root)) }
    {
        let Some(root) = root else { unreachable!() };
        Ok(Dict {
            root: Arc::new(alloc, Box::into_inner(root))?,
            alloc,
        })
    }

    /// The list of a copy of a part, where it has a node.
    fn part(&self, at: Option<&Node<D>>) -> Result<Option<Dict<D>>, NoMemory>
        requires { IsVersion D.digest_of (part at) }
        ensures { IfOk result (λ d. d ≡ where_some (in_order (part at.entry))) }
    {
        let Some(node) = at else {
            return Ok(None);
        };
        // For the proof alone: a node has an entry.
        let _entry = node.entry();
        let root = copy(self.alloc, at)?;
        Ok(Some(Dict::of(self.alloc, root)?))
    }
}
