ghost use Rattle.hist_proof.specs.Digested.{Sized};
ghost use Rattle.hist_proof.specs.Pruned.{at, digest_of, fits};
ghost use Rattle.hist_proof.specs.Shown.{shown};
ghost use Rattle.hist_proof.specs.View.{tree_view};
ghost use Rattle.std.specs.Option.{option_map};
ghost use Rattle.std.specs.Prelude.{◌≡◌, IfOk, Some, None, true, if◌then◌else◌};

use crate::leaves::fitting_leaf;
use crate::marks::{Marks, digest_with, marks_of};
use crate::pruned::Pruned;
use crate::sizes::fits;
use crate::versions::version_digest;
use fr_bytes::NoMemory;
use fr_digest::{Dig, Digester};
use std::alloc::Global;
use std::marker::{Model, PhantomData};

/// A pruned tree of a size that it fits, beside the digests of its nodes under `D`, of which contracts see the
/// tree and the size. It is made with one hash for each node, and then the root of a version costs no more
/// than one hash for each level.
#[derive(Drop)]
pub struct DigestedTree<D: Digester> {
    pruned: Pruned,
    marks: Marks,
    leaves: u64,
    digester: PhantomData<D>,
}

impl<D: Digester> Model for DigestedTree<D> {
    ghost use Rattle.hist_proof.specs.Code.{sized_code};
    ghost use Rattle.hist_proof.specs.Digested.{Sized, marks_of};
    ghost use Rattle.hist_proof.specs.Pruned.{fits};
    ghost use Rattle.hist_proof.specs.View.{marks_view, tree_view};
    ghost use Rattle.std.specs.Prelude.{◌≡◌, true};

    ghost Value = { Sized };

    ghost coded = { sized_code };

    ghost view = { λ t. record { tree = tree_view t.pruned; size = t.leaves } };

    ghost invariant = { λ t. (fits (tree_view t.pruned) t.leaves ≡ true)
        × (marks_view t.marks ≡ marks_of D.digest_of (tree_view t.pruned)) };
}

impl<D: Digester> DigestedTree<D> {
    /// The pruned tree `p` of `size` leaves, with its digests, and `None` exactly where it isn't one of this size.
    /// Each node is hashed once.
    pub fn new(alloc: Global, p: Pruned, size: u64) -> Result<Option<DigestedTree<D>>, NoMemory>
        ensures { IfOk result (λ t. t
            ≡ (if fits (tree_view p) size then Some (record { tree = tree_view p; size = size }) else None)) }
    {
        if !fits(&p, size) {
            return Ok(None);
        }
        let marks = marks_of::<D>(alloc, &p)?;
        Ok(Some(DigestedTree {
            pruned: p,
            marks,
            leaves: size,
            digester: PhantomData,
        }))
    }

    /// The tree without its digests.
    pub fn tree(&self) -> &Pruned
        ensures value { tree_view result.now ≡ self.now.tree }
        ensures fitting { fits self.now.tree self.now.size ≡ true }
    {
        &self.pruned
    }

    /// The tree, and its digests no more.
    pub fn into_tree(self) -> Pruned
        ensures { tree_view result ≡ self.tree }
    {
        self.pruned
    }

    /// How many leaves the tree has, shown or not.
    pub fn size(&self) -> u64
        ensures { result ≡ self.now.size }
    {
        self.leaves
    }

    /// The root of the tree. Nothing is hashed.
    pub fn digest(&self) -> Dig
        ensures { result ≡ digest_of D.digest_of self.now.tree }
    {
        digest_with::<D>(&self.pruned, &self.marks)
    }

    /// The root of version `v`: `None` exactly where `v` is 0 or past the size, or version `v` ends within a hidden
    /// part. At most one hash for each level of the tree, and no memory.
    pub fn digest_at(&self, v: u64) -> Option<Dig>
        ensures { result ≡ at D.digest_of self.now.tree self.now.size v }
    {
        version_digest::<D>(&self.pruned, &self.marks, self.leaves, v)
    }

    /// The text at position `k`, counted from 0: `Some` exactly where it is shown. Takes no memory.
    pub fn leaf_at(&self, k: u64) -> Option<&[u8]>
        ensures { option_map (λ t. t.now) result ≡ shown self.now.tree self.now.size k }
    {
        fitting_leaf(&self.pruned, self.leaves, k)
    }
}
