// Keys of inner nodes in one generation, and the parts of a change that a book learns by.

ghost use Rattle.key_graph.specs.KeyBook.{is_slot, wraps_in};
ghost use Rattle.key_graph.specs.KeyTree.{wrap_stream};
ghost use Rattle.key_graph.specs.NodeKeys.{key_in};
ghost use Rattle.pad_wrap.specs.Pad.{padded};
ghost use Rattle.std.specs.Prelude.{◌≡◌, ◌/◌, ℕ, nat_eq, if◌then◌else◌, OnOk};

use fr_bytes::{NoMemory, Sequence};
use fr_digest::Dig;
use op_types::{Kind, Wrap};
use pad_wrap::unwrap32;
use std::alloc::AllocError;
use std::marker::Model;

/// The key of an inner node, in the generation under which a book keeps it.
#[derive(Clone, Copy, Debug, PartialEq, Eq)]
pub struct NodeKey {
    /// The node.
    pub node: u32,
    /// Its key.
    pub key: Dig,
}

/// The keys of one generation.
#[derive(Debug, Drop)]
pub struct NodeKeys {
    keys: Sequence<NodeKey>,
}

impl Model for NodeKeys {
    ghost use Rattle.key_graph.specs.declared.node_keys.NodeKey.{NodeKey};
    ghost use Rattle.std.specs.Prelude.{List};

    ghost Value = { List NodeKey };

    ghost view = { λ k. k.keys };
}

impl NodeKeys {
    pub fn of(keys: Vec<NodeKey>) -> NodeKeys
        ensures { result ≡ keys.items }
    {
        NodeKeys {
            keys: Sequence::of(keys),
        }
    }

    pub fn as_slice(&self) -> &[NodeKey]
        ensures { result.now ≡ self.now }
    {
        self.keys.as_slice()
    }
}

impl Clone for NodeKeys {
    ghost is_clone = { λ x y. y ≡ x };

    fn clone(&self) -> Result<NodeKeys, AllocError> {
        match self.keys.copy() {
            Ok(keys) => Ok(NodeKeys { keys }),
            Err(NoMemory) => Err(AllocError),
        }
    }
}

/// The node's key, where it is among these.
pub fn find_key(keys: &[NodeKey], node: u32) -> Option<Dig>
    ensures { result ≡ key_in node keys.now }
{
    for key in keys {
        if key.node == node {
            return Some(key.key);
        }
    }
    None
}

/// Puts the key that a wrap gives, opened by its child's key, before the others.
pub fn put_key(fresh: &mut Vec<NodeKey>, gen_: u32, wrap: &Wrap, key: &Dig) -> Result<(), NoMemory>
    ensures { OnOk result ((x : ℕ) → key_in x fresh.new.items ≡ (if nat_eq (wrap.now.child / 2) x then Some (padded key.now (wrap_stream (wrap.now.child / 2) gen_) wrap.now.body) else key_in x fresh.old.items)) }
{
    let node = wrap.child / 2;
    let stream = u64::from(node) * 0x1_0000_0000 + u64::from(gen_);
    let key = unwrap32(key, stream, &wrap.body);
    fresh.insert(0, NodeKey { node, key })?;
    Ok(())
}

/// Whether a slot is this one.
pub fn is_slot(slot: Option<u8>, number: u32) -> bool
    ensures { result ≡ is_slot slot number }
{
    match slot {
        Some(slot) => u32::from(slot) == number,
        None => false,
    }
}

/// The wraps of a change.
pub fn wraps_in(kind: &Kind) -> &[Wrap]
    ensures { result.now ≡ wraps_in kind.now }
{
    match kind {
        Kind::Post { .. } => &[],
        Kind::Admit { wraps, .. } | Kind::Remove { wraps, .. } => wraps.as_slice(),
    }
}
