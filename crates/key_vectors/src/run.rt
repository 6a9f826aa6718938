ghost use Rattle.op_types.specs.Kinds.{is_change};
ghost use Rattle.std.specs.Prelude.{◌≡◌, ◌≤◌, true};

use crate::words::Step;
use fr_bytes::{NoMemory, Sequence};
use fr_digest::Dig;
use key_graph::{KeyBook, KeyTree, PlanRefusal, leaf_key};
use op_types::{Kind, READER, Wrap, Wraps};
use serde_json::Value;
use std::alloc::Global;
use vector_cases::{CaseFault, byte_at, dig_at, small_at};

/// A user of a run, with the secret that is shared with the owner.
#[derive(Drop)]
pub struct User {
    /// The user's number.
    pub user: u32,
    /// The secret that the user's leaf key is made of.
    pub secret: Dig,
    /// What the user learnt.
    pub book: KeyBook,
}

// What the operation of a step has.
fn kind_of(step: &Step, slot: u8, wraps: Wraps) -> Kind
    ensures { is_change result ≡ true }
{
    let user = step.user;
    if step.admits {
        let role = READER;
        Kind::Admit {
            user,
            role,
            slot,
            wraps,
        }
    } else {
        Kind::Remove { user, slot, wraps }
    }
}

/// A tree and the books of its users.
#[derive(Drop)]
pub struct Run {
    alloc: Global,
    wall: u32,
    depth: u8,
    tree: KeyTree,
    users: Vec<User>,
    epochs: u64,
    ghost levels: { (1 ≤ depth) × (depth ≤ 6) },
}

impl Run {
    /// The run of a new tree of a case, without users.
    pub fn of(alloc: Global, case: &Value) -> Result<Run, CaseFault> {
        let wall = small_at(case, "wall")?;
        let depth = byte_at(case, "depth")?;
        let master = dig_at(case, "master")?;
        if depth < 1 || depth > 6 {
            return Err(CaseFault::NoValue("a depth from 1 to 6"));
        }
        Ok(Run {
            alloc,
            wall,
            depth,
            tree: KeyTree::make(alloc, wall, depth, master)?,
            users: Vec::new(alloc),
            epochs: 0,
        })
    }

    /// Adds a user with an empty book.
    pub fn add(&mut self, user: u32, secret: Dig) -> Result<(), CaseFault> {
        let leaf = leaf_key(&secret, self.wall, user);
        let book = KeyBook::make(self.alloc, self.wall, self.depth, user, leaf)?;
        self.users.push(User { user, secret, book })?;
        Ok(())
    }

    /// The users.
    pub fn users(&self) -> &[User] {
        self.users.as_slice()
    }

    /// The user of this number.
    pub fn user(&self, user: u32) -> Option<&User> {
        self.users.iter().find(|known| known.user == user)
    }

    /// The leaf key of a user, who needn't be known.
    fn leaf(&self, user: u32) -> Dig {
        let secret = match self.user(user) {
            Some(known) => known.secret,
            None => [0; 32],
        };
        leaf_key(&secret, self.wall, user)
    }

    /// What is planned of a step.
    pub fn plan(&self, step: &Step) -> Result<(u8, Wraps), PlanRefusal> {
        let change = step.change(self.leaf(step.user));
        self.tree.plan(step.generation, change)
    }

    /// Follows a step, lets all books learn it, and says whether it fits.
    pub fn follow(&mut self, step: &Step, slot: u8, wraps: Vec<Wrap>) -> Result<bool, NoMemory> {
        let change = step.change(self.leaf(step.user));
        let fits = self.tree.follow(step.generation, change, slot)?;
        self.epochs = self.epochs.saturating_add(1);
        let kind = kind_of(step, slot, Sequence::of(wraps));
        self.learn(step.generation, &kind)?;
        Ok(fits)
    }

    fn learn(&mut self, generation: u32, kind: &Kind) -> Result<(), NoMemory>
        requires { is_change kind.now ≡ true }
    {
        for known in &mut self.users {
            known.book.learn(generation, kind)?;
        }
        Ok(())
    }

    /// The root key of the last epoch.
    pub fn root(&self) -> Option<Dig> {
        self.tree.root_key(self.epochs)
    }

    /// The last epoch's root key, as a user's book has it.
    pub fn root_of(&self, known: &User) -> Option<Dig> {
        known.book.root_key(self.epochs)
    }
}
