ghost use Rattle.key_graph.specs.KeyTree.{followed_by, planned, tree_root};
ghost use Rattle.key_graph.specs.declared.change.PlanRefusal.TheVariants as refusals;
ghost use Rattle.op_types.specs.Spelling.{AreWraps};
ghost use Rattle.op_types.specs.declared.limits.TheConstants.{SLOT_MAX};
ghost use Rattle.std.specs.Prelude.{◌≡◌, ◌≢◌, ◌≤◌, [], length, IfErr, IfOk, OnErr};

use crate::change::{Change, KeyChange, PlanRefusal, Setting};
use crate::history::{fits, place, root_generation};
use crate::keys::inner_key;
use crate::wraps::wraps_of;
use fr_bytes::{NoMemory, Sequence};
use fr_digest::Dig;
use op_types::Wraps;
use std::alloc::Global;
use std::marker::Model;

/// The key tree of a wall, which its owner keeps: the changes that were followed, and the generations of the epochs'
/// root keys.
///
/// A change is planned, and then followed where the wall took it. Contracts see the changes newest first.
#[derive(Debug, Drop)]
pub struct KeyTree {
    setting: Setting,
    // The oldest first.
    followed: Vec<Change>,
    epochs: Vec<u32>,
}

impl Model for KeyTree {
    ghost use Rattle.key_graph.specs.KeyTree.{Tree};
    ghost use Rattle.std.specs.Prelude.{reverse, ◌≤◌};

    ghost Value = { Tree };

    ghost view = { λ t. record { setting = t.setting; followed = reverse t.followed.items; epochs = t.epochs.items } };

    ghost invariant = { λ t. (1 ≤ t.setting.depth) × (t.setting.depth ≤ 6) };
}

impl KeyTree {
    /// The tree of a wall without members: `depth` is 1 to 6, so there are 2 to 64 slots, and `master` is the owner's
    /// secret. Epoch 0's root key is node 1's in the generation 0.
    pub fn make(alloc: Global, wall: u32, depth: u8, master: Dig) -> Result<KeyTree, NoMemory>
        requires { (1 ≤ depth) × (depth ≤ 6) }
        ensures { IfOk result (λ tree. tree ≡ record { setting = record { wall = wall; depth = depth; master = master }; followed = []; epochs = [] }) }
    {
        Ok(KeyTree {
            setting: Setting {
                wall,
                depth,
                master,
            },
            followed: Vec::new(alloc),
            epochs: Vec::new(alloc),
        })
    }

    /// The number of the wall. Takes no memory.
    pub fn wall(&self) -> u32
        ensures { result ≡ self.now.setting.wall }
    {
        self.setting.wall
    }

    /// The tree of the same wall without members. Takes no memory.
    pub fn fresh(&self) -> KeyTree
        ensures { result ≡ record { setting = self.now.setting; followed = []; epochs = [] } }
    {
        KeyTree {
            setting: self.setting,
            followed: Vec::new(*self.followed.allocator()),
            epochs: Vec::new(*self.epochs.allocator()),
        }
    }

    /// The same tree, in memory of the same allocator.
    pub fn copy(&self) -> Result<KeyTree, NoMemory>
        ensures { IfOk result (λ same. same ≡ self.now) }
    {
        Ok(KeyTree {
            setting: self.setting,
            followed: Vec::from_slice(*self.followed.allocator(), self.followed.as_slice())?,
            epochs: Vec::from_slice(*self.epochs.allocator(), self.epochs.as_slice())?,
        })
    }

    /// How many changes were followed, those that don't fit included. Takes no memory.
    pub fn changes(&self) -> u64
        ensures { result ≡ length self.now.epochs }
    {
        self.epochs.len() as u64
    }

    /// The slot that `change` takes or frees in the generation `gen_`, and its wraps: for each ancestor of the slot,
    /// from the lowest up, and each of its children, left first, that has a member below it after the change, the
    /// ancestor's new key under the child's current key. These are at most two wraps a level. An admission takes the
    /// least free slot, and a removal frees the user's. An operation with this slot and these wraps has a spelling.
    ///
    /// `AlreadyIn` comes for the admission of a member, `NotIn` for the removal of a user who is none, and `NoSlot`
    /// where every slot is taken. The tree stays as it is.
    #[tactic(auto, unfolding(crate::specs::KeyTree::planned))]
    pub fn plan(&self, gen_: u32, change: KeyChange) -> Result<(u8, Wraps), PlanRefusal>
        ensures planned { IfOk result (λ answer. planned self.now gen_ change ≡ Ok answer) }
        ensures slot { IfOk result (λ answer. answer.0 ≤ SLOT_MAX) }
        ensures wraps { IfOk result (λ answer. AreWraps answer.1) }
        ensures refused { IfErr result (λ refusal. refusal ≢ refusals.NoMemory → planned self.now gen_ change ≡ Err refusal) }
    {
        let slot = match place(self.setting.depth, self.followed.as_slice(), change) {
            Ok(slot) => slot,
            Err(refusal) => return Err(refusal),
        };
        let change = Change {
            generation: gen_,
            slot,
            what: change,
        };
        match wraps_of(
            &self.setting,
            self.followed.as_slice(),
            &change,
            *self.followed.allocator(),
        ) {
            Ok(wraps) => Ok((slot, Sequence::of(wraps))),
            Err(NoMemory) => Err(PlanRefusal::NoMemory),
        }
    }

    /// Takes a change that the wall accepted, with the generation and slot that it was planned with, and says whether
    /// it fits: an admission doesn't where the user has a slot or the slot is taken, a removal where the user isn't at
    /// the slot, and neither where the slot is past the tree. One that doesn't fit begins an epoch of its generation
    /// and changes nothing else. On `NoMemory` the tree is as before.
    #[tactic(auto, unfolding(crate::specs::KeyTree::followed_by))]
    pub fn follow(&mut self, gen_: u32, change: KeyChange, slot: u8) -> Result<bool, NoMemory>
        ensures followed { IfOk result (λ fits. (fits, self.new) ≡ followed_by self.old (record { generation = gen_; slot = slot; what = change })) }
        ensures unchanged { OnErr result (self.new ≡ self.old) }
    {
        let fits = fits(self.setting.depth, self.followed.as_slice(), slot, change);
        self.epochs.try_reserve(1)?;
        if fits {
            self.followed.push(Change {
                generation: gen_,
                slot,
                what: change,
            })?;
        }
        self.epochs.push_reserved(gen_);
        Ok(fits)
    }

    /// The root key of an epoch: node 1's key in the generation 0 at epoch 0, and in the generation of the e-th
    /// followed change at epoch e. `None` comes exactly for the epochs past those. Takes no memory.
    #[tactic(auto, unfolding(crate::specs::KeyTree::tree_root))]
    pub fn root_key(&self, epoch: u64) -> Option<Dig>
        ensures { result ≡ tree_root self.now epoch }
    {
        let gen_ = root_generation(&self.epochs, epoch)?;
        Some(inner_key(&self.setting.master, self.setting.wall, 1, gen_))
    }
}
