ghost use Rattle.std.specs.Prelude.{◌≡◌, ◌++◌, ◌∷◌, [], drop, length, map, OnOk, OnErr};
ghost use Rattle.std.specs.List.{AllByRecursion};
ghost use Rattle.op_types.specs.declared.op.Leaf.{Leaf};
ghost use Rattle.op_types.specs.Spelling.{IsLeaf, SpellsLeaf, leaf_text, op_text};

use crate::op::{Leaf, Leaves};
use crate::writing::write_leaf;
use fr_bytes::{Bytes, NoMemory, Sequence};
use std::alloc::Global;
use std::marker::Model;

/// Where a leaf's text has its operation: behind the digest of 32 bytes and the epoch of 8.
const OP_PLACE: usize = 40;

/// The bytes of the operation in a leaf's text, which stand behind a digest and an epoch: the bytes
/// behind the first 40. Takes no memory.
pub fn op_part(text: &[u8]) -> &[u8]
    ensures bytes { result.now ≡ drop 40 text.now }
    ensures op { (leaf : Leaf) → SpellsLeaf leaf text.now → result.now ≡ op_text leaf.op }
{
    if text.len() < OP_PLACE {
        return &[];
    }
    let (_, op) = text.split_at(OP_PLACE);
    op
}

/// Leaves with their texts, each written or read once.
///
/// Contracts see the leaves alone.
#[derive(Debug, Drop)]
pub struct WrittenLeaves {
    texts: Vec<Bytes>,
    leaves: Vec<Leaf>,
}

impl Model for WrittenLeaves {
    ghost use Rattle.std.specs.Prelude.{List};
    ghost use Rattle.op_types.specs.declared.op.Leaf.{Leaf};
    ghost use Rattle.op_types.specs.Written.{KeepsTexts};

    ghost Value = { List Leaf };

    ghost view = { λ w. w.leaves.items };

    ghost invariant = { λ w. KeepsTexts w.texts.items w.leaves.items };
}

impl WrittenLeaves {
    /// No leaves. Takes no memory.
    pub fn empty(alloc: Global) -> Self
        ensures { result ≡ [] }
    {
        WrittenLeaves {
            texts: Vec::new(alloc),
            leaves: Vec::new(alloc),
        }
    }

    /// How many leaves there are.
    pub fn len(&self) -> usize
        ensures { result ≡ length self.now }
    {
        self.leaves.len()
    }

    /// The leaves, in order. Takes no memory.
    pub fn leaves(&self) -> &[Leaf]
        ensures leaves { result.now ≡ self.now }
        ensures spelled { AllByRecursion IsLeaf self.now }
    {
        self.leaves.as_slice()
    }

    /// The text of each leaf, in order. Takes no memory.
    pub fn texts(&self) -> &[Bytes]
        ensures texts { result.now ≡ map leaf_text self.now }
        ensures spelled { AllByRecursion IsLeaf self.now }
    {
        self.texts.as_slice()
    }

    /// Adds a leaf and writes its text. On want of memory all is as before.
    pub fn push(&mut self, leaf: Leaf) -> Result<(), NoMemory>
        requires { IsLeaf leaf }
        ensures pushed { OnOk result (self.new ≡ self.old ++ leaf ∷ []) }
        ensures unchanged { OnErr result (self.new ≡ self.old) }
    {
        let text = write_leaf(*self.leaves.allocator(), &leaf)?;
        self.push_read(text, leaf)
    }

    /// Adds a leaf with the text that it was read from. On want of memory all is as before.
    pub fn push_read(&mut self, text: Bytes, leaf: Leaf) -> Result<(), NoMemory>
        requires { SpellsLeaf leaf text }
        ensures pushed { OnOk result (self.new ≡ self.old ++ leaf ∷ []) }
        ensures unchanged { OnErr result (self.new ≡ self.old) }
    {
        self.texts.reserve(1)?;
        self.leaves.push(leaf)?;
        self.texts.push_reserved(text);
        Ok(())
    }

    /// The leaves without their texts. Takes no memory.
    pub fn into_leaves(self) -> Leaves
        ensures { result ≡ self }
    {
        Sequence::of(self.leaves)
    }
}
