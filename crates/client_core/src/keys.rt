//! The keys that a client holds of a wall.
ghost use Rattle.std.specs.Prelude.{◌≡◌, ◌+◌, ◌≤◌, length, true, IfOk, OnOk};
ghost use Rattle.std.specs.List.{AllByRecursion};
ghost use Rattle.op_types.specs.declared.limits.TheConstants.{SEQ_MAX};
ghost use Rattle.op_types.specs.Kinds.{is_change};
ghost use Rattle.op_types.specs.Spelling.{IsLeaf};
ghost use Rattle.check_rules.specs.Shown.{changes_of};
ghost use Rattle.client_core.specs.Keys.{IsNumbered, after_change, after_changes, followed, fresh, held, keys_view, leaf_of, root_key, secret_of};

use crate::start::UserSecrets;
use fr_bytes::NoMemory;
use fr_digest::Dig;
use key_graph::{KeyBook, KeyChange, KeyTree, leaf_key};
use op_types::{Kind, Leaf, Op};

/// The keys that a client holds of a wall, by the changes of the access list that it holds.
#[derive(Drop)]
pub(crate) enum Keys {
    /// The owner's key tree, with the users' secrets.
    Owner { tree: KeyTree, secrets: UserSecrets },
    /// Another user's book.
    Member(KeyBook),
}

// The user's secret among these.
fn secret_of(secrets: &UserSecrets, user: u32) -> Dig
    ensures { result ≡ secret_of secrets.now user }
{
    let listed = secrets.as_slice();
    for pair in listed {
        if pair.0 == user {
            return pair.1;
        }
    }
    [0; 32]
}

/// The user's leaf key on a wall.
pub(crate) fn leaf_of(wall: u32, secrets: &UserSecrets, user: u32) -> Dig
    ensures { result ≡ leaf_of wall secrets.now user }
{
    leaf_key(&secret_of(secrets, user), wall, user)
}

// Has the owner's tree follow a change of this generation.
fn follow(tree: &mut KeyTree, secrets: &UserSecrets, gen_: u32, kind: &Kind) -> Result<(), NoMemory>
    ensures { OnOk result (tree.new ≡ followed tree.old secrets.now gen_ kind.now) }
{
    match kind {
        Kind::Post { .. } => {}
        Kind::Admit { user, slot, .. } => {
            let leaf = leaf_of(tree.wall(), secrets, *user);
            tree.follow(gen_, KeyChange::Admit { user: *user, leaf }, *slot)?;
        }
        Kind::Remove { user, slot, .. } => {
            tree.follow(gen_, KeyChange::Remove { user: *user }, *slot)?;
        }
    }
    Ok(())
}

impl Keys {
    /// How many changes are held.
    pub(crate) fn held(&self) -> u64
        ensures { result ≡ held (keys_view self.now) }
    {
        match self {
            Keys::Owner { tree, .. } => tree.changes(),
            Keys::Member(book) => book.changes(),
        }
    }

    /// The root key of an epoch, where it is held.
    pub(crate) fn root_key(&self, epoch: u64) -> Option<Dig>
        ensures { result ≡ root_key (keys_view self.now) epoch }
    {
        match self {
            Keys::Owner { tree, .. } => tree.root_key(epoch),
            Keys::Member(book) => book.root_key(epoch),
        }
    }

    /// The same keys.
    pub(crate) fn copy(&self) -> Result<Keys, NoMemory>
        ensures { IfOk result (λ same. keys_view same ≡ keys_view self.now) }
    {
        match self {
            Keys::Owner { tree, secrets } => Ok(Keys::Owner {
                tree: tree.copy()?,
                secrets: secrets.copy()?,
            }),
            Keys::Member(book) => Ok(Keys::Member(book.copy()?)),
        }
    }

    /// The keys of no change.
    pub(crate) fn fresh(&self) -> Result<Keys, NoMemory>
        ensures { IfOk result (λ keys. keys_view keys ≡ fresh (keys_view self.now)) }
    {
        match self {
            Keys::Owner { tree, secrets } => Ok(Keys::Owner {
                tree: tree.fresh(),
                secrets: secrets.copy()?,
            }),
            Keys::Member(book) => Ok(Keys::Member(book.fresh())),
        }
    }

    /// Learns the next change. After want of memory nothing is said of the keys.
    #[tactic(auto, unfolding(crate::specs::Keys::after_change))]
    fn learn(&mut self, op: &Op) -> Result<(), NoMemory>
        requires change { is_change op.now.kind ≡ true }
        requires number { op.now.seq ≤ SEQ_MAX }
        ensures { OnOk result (keys_view self.new ≡ after_change (keys_view self.old) op.now) }
    {
        let gen_ = op.seq + 1;
        match self {
            Keys::Owner { tree, secrets } => follow(tree, secrets, gen_, &op.kind),
            Keys::Member(book) => book.learn(gen_, &op.kind),
        }
    }

    /// These keys after changes, which are learnt in order.
    pub(crate) fn learning(self, changes: &[Op]) -> Result<Keys, NoMemory>
        requires { AllByRecursion IsNumbered changes.now }
        ensures { IfOk result (λ keys. keys_view keys ≡ after_changes (keys_view self) changes.now) }
    {
        let mut keys = self;
        for op in changes {
            keys.learn(op)?;
        }
        Ok(keys)
    }

    /// These keys after the changes among leaves.
    pub(crate) fn learning_shown(self, leaves: &[Leaf]) -> Result<Keys, NoMemory>
        requires { AllByRecursion IsLeaf leaves.now }
        ensures { IfOk result (λ keys. keys_view keys ≡ after_changes (keys_view self) (changes_of leaves.now)) }
    {
        let mut keys = self;
        for leaf in leaves {
            if leaf.op.kind.is_change() {
                keys.learn(&leaf.op)?;
            }
        }
        Ok(keys)
    }
}
