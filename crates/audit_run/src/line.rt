ghost use Rattle.std.specs.Prelude.{◌≡◌, ◌+◌, ◌-◌, ◌<◌, ◌≤◌, ◌^◌, ◌++◌, ◌∷◌, [], Some, length, map, slice_get, take};
ghost use Rattle.std.specs.Prelude.{true, IfOk, OnOk, OnErr};
ghost use Rattle.hist_proof.specs.Pruned.{Prunes};
ghost use Rattle.hist_proof.specs.View.{tree_view};
ghost use Rattle.op_types.specs.Spelling.{IsLeaf, leaf_text};
ghost use Rattle.wall_law.specs.State.{opening, state_of};
ghost use Rattle.audit_run.specs.Line.{History};

use crate::pruned::prunes_part;
use fr_bytes::{Bytes, NoMemory, Texts};
use fr_digest::Digester;
use hist_proof::Pruned;
use hist_tree::Hist;
use op_types::{Leaf, write_leaf};
use std::alloc::Global;
use std::marker::Model;
use tree_model::{HasText, depth_of};
use wall_law::{State, genesis, state_after};

/// The text of a leaf.
#[derive(Drop)]
pub(crate) struct LeafText {
    pub(crate) text: Bytes,
}

impl HasText for LeafText {
    ghost text_of = { λ t. t.text };

    fn text(&self) -> &[u8] {
        self.text.as_slice()
    }
}

/// A leaf and the state behind it.
#[derive(Drop)]
struct Placed<'a> {
    leaf: &'a Leaf,
    after: State,
}

/// A history of a wall that grows at its end. Each leaf is spelled and digested once, and the state behind it is made
/// once; contracts see the leaves.
#[derive(Drop)]
pub(crate) struct Line<'a, D: Digester> {
    wall: u32,
    owner: u32,
    first: State,
    placed: Vec<Placed<'a>>,
    texts: Hist<D, LeafText>,
}

impl<'a, D: Digester> Model for Line<'a, D> {
    ghost use Rattle.std.specs.Prelude.{◌≡◌, map};
    ghost use Rattle.op_types.specs.Spelling.{IsLeaf, leaf_text};
    ghost use Rattle.std.specs.List.{AllByRecursion};
    ghost use Rattle.wall_law.specs.State.{opening};
    ghost use Rattle.audit_run.specs.Line.{HasStates, History};

    ghost Value = { History };

    ghost view = { λ l. record { wall = l.wall; owner = l.owner; leaves = map (λ p. p.leaf.now) l.placed.items } };

    ghost invariant = { λ l. (l.first ≡ opening l.owner)
        × (HasStates l.owner (map (λ p. p.leaf.now) l.placed.items) (map (λ p. p.after) l.placed.items))
        × (AllByRecursion IsLeaf (map (λ p. p.leaf.now) l.placed.items))
        × (map (λ t. t.text) l.texts ≡ map leaf_text (map (λ p. p.leaf.now) l.placed.items)) };
}

impl<'a, D: Digester> Line<'a, D> {
    /// The history of no leaves.
    pub(crate) fn empty(alloc: Global, wall: u32, owner: u32) -> Result<Line<'a, D>, NoMemory>
        ensures { IfOk result (λ l. l ≡ record { wall = wall; owner = owner; leaves = [] }) }
    {
        Ok(Line {
            wall,
            owner,
            first: genesis(alloc, owner)?,
            placed: Vec::new(alloc),
            texts: Hist::empty(alloc),
        })
    }

    /// The wall.
    pub(crate) fn wall(&self) -> u32
        ensures { result ≡ self.now.wall }
    {
        self.wall
    }

    /// How many leaves there are.
    pub(crate) fn len(&self) -> usize
        ensures { result ≡ length self.now.leaves }
    {
        self.placed.len()
    }

    /// The leaf at a position.
    pub(crate) fn leaf(&self, k: usize) -> &'a Leaf
        requires { k < length self.now.leaves }
        ensures { slice_get self.now.leaves k ≡ Some result.now }
    {
        self.placed[k].leaf
    }

    /// The state before a position.
    pub(crate) fn state(&self, k: usize) -> &State
        requires { k ≤ length self.now.leaves }
        ensures { result.now ≡ state_of self.now.owner (take k self.now.leaves) }
    {
        if k == 0 {
            return &self.first;
        }
        &self.placed[k - 1].after
    }

    /// Adds a leaf at the end.
    ///
    /// # Errors
    /// `NoMemory`. The history is then as before.
    pub(crate) fn push(&mut self, alloc: Global, leaf: &'a Leaf) -> Result<(), NoMemory>
        requires spelled { IsLeaf leaf.now }
        requires room { length self.old.leaves < 2 ^ 64 - 1 }
        ensures added { OnOk result (self.new ≡ record self.old { leaves = self.old.leaves ++ leaf.now ∷ [] }) }
        ensures unchanged { OnErr result (self.new ≡ self.old) }
    {
        let after = state_after(alloc, self.state(self.len()), &leaf.op)?;
        let texts = self.texts.append(LeafText {
            text: write_leaf(alloc, leaf)?,
        })?;
        self.placed.push(Placed { leaf, after })?;
        self.texts = texts;
        Ok(())
    }

    /// Another history, of the first `k` leaves of this one.
    pub(crate) fn front(&self, alloc: Global, k: usize) -> Result<Line<'a, D>, NoMemory>
        requires { k ≤ length self.now.leaves }
        ensures { IfOk result (λ l. l ≡ record self.now { leaves = take k self.now.leaves }) }
    {
        let mut line = Line::empty(alloc, self.wall, self.owner)?;
        for i in 0..k {
            line.push(alloc, self.leaf(i))?;
        }
        Ok(line)
    }

    /// The texts of the first `v` leaves.
    pub(crate) fn texts(&self, alloc: Global, v: u64) -> Result<Texts, NoMemory>
        requires { v ≤ length self.now.leaves }
        ensures { IfOk result (λ texts. texts ≡ map leaf_text (take v self.now.leaves)) }
    {
        let mut texts = Vec::new(alloc);
        for k in 0..v {
            texts.push(self.texts.item(k).text.copy()?)?;
        }
        Ok(Texts::of(texts))
    }

    /// Whether the tree prunes the first `size` leaves. No text is digested.
    pub(crate) fn prunes(&self, tree: &Pruned, size: u64) -> bool
        requires some { 0 < size }
        requires within { size ≤ length self.now.leaves }
        ensures { result ≡ true → Prunes D.digest_of (tree_view tree.now) (map leaf_text (take size self.now.leaves)) }
    {
        prunes_part(tree, &self.texts, size, depth_of(size), 0)
    }
}
