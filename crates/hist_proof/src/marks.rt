ghost use Rattle.fr_digest.specs.Digest.{Digest};
ghost use Rattle.hist_proof.specs.Digested.{IsMarked, absent, mark_leaf, mark_node, mark_single, marks_of};
ghost use Rattle.hist_proof.specs.Pruned.{Tree, digest_of, node, single};
ghost use Rattle.hist_proof.specs.View.{marks_view, tree_view};
ghost use Rattle.std.specs.Prelude.{◌≡◌, IfOk};

use crate::pruned::Pruned;
use fr_bytes::NoMemory;
use fr_digest::{Dig, Digester};
use std::alloc::Global;

/// The digests of the nodes of a pruned tree, in the places of the nodes. A hidden part is its digest, so
/// none is kept beside it.
#[derive(Debug, Drop)]
pub(crate) enum Marks {
    /// None is kept here and below.
    Absent,
    /// Of a leaf.
    Leaf(Dig),
    /// Of a node of two halves, and those of the halves.
    Node(Dig, Box<Marks>, Box<Marks>),
    /// Of a node without a right half, and those of the left half.
    Single(Dig, Box<Marks>),
}

impl Marks {
    /// The digests of the halves of the node of two halves that these are of.
    pub(crate) fn halves(&self) -> (&Marks, &Marks)
        ensures left { (d : Digest) (l r : Tree) → IsMarked d (marks_view self.now) (node l r)
            → IsMarked d (marks_view result.0.now) l }
        ensures right { (d : Digest) (l r : Tree) → IsMarked d (marks_view self.now) (node l r)
            → IsMarked d (marks_view result.1.now) r }
    {
        match self {
            Marks::Node(_, left, right) => (left, right),
            Marks::Absent => (self, self),
            Marks::Leaf(_) => (self, self),
            Marks::Single(_, _) => (self, self),
        }
    }

    /// The digests of the left half of the node without a right half that these are of.
    pub(crate) fn left(&self) -> &Marks
        ensures { (d : Digest) (l : Tree) → IsMarked d (marks_view self.now) (single l)
            → IsMarked d (marks_view result.now) l }
    {
        match self {
            Marks::Single(_, left) => left,
            Marks::Absent => self,
            Marks::Leaf(_) => self,
            Marks::Node(_, _, _) => self,
        }
    }
}

/// The digest of what a pruned tree stands for. Each node is hashed once.
#[tactic(auto, unfolding(crate::specs::Pruned::digest_of))]
fn digest<D: Digester>(p: &Pruned) -> Dig
    ensures { result ≡ digest_of D.digest_of (tree_view p.now) }
{
    match p {
        Pruned::Hidden(digest) => *digest,
        Pruned::Leaf(text) => D::tagged(0, &[], text.as_slice()),
        Pruned::Node(left, right) => D::tagged(1, &digest::<D>(left), &digest::<D>(right)),
        Pruned::Single(left) => D::tagged(1, &[], &digest::<D>(left)),
    }
}

/// The digest of what a pruned tree stands for. Nothing is hashed where its digests are kept.
#[tactic(auto, using(crate::proofs::Marking::marking))]
pub(crate) fn digest_with<D: Digester>(p: &Pruned, marks: &Marks) -> Dig
    requires { IsMarked D.digest_of (marks_view marks.now) (tree_view p.now) }
    ensures { result ≡ digest_of D.digest_of (tree_view p.now) }
{
    match marks {
        Marks::Absent => digest::<D>(p),
        Marks::Leaf(digest) => *digest,
        Marks::Node(digest, _, _) => *digest,
        Marks::Single(digest, _) => *digest,
    }
}

/// The digests of a node of two halves, from those of the halves.
fn node_marks(alloc: Global, digest: Dig, left: Marks, right: Marks) -> Result<Marks, NoMemory>
    ensures { IfOk result (λ m. marks_view m ≡ mark_node digest (marks_view left) (marks_view right)) }
{
    let left = Box::new(alloc, left)?;
    let right = Box::new(alloc, right)?;
    Ok(Marks::Node(digest, left, right))
}

/// The digests of a node without a right half, from those of the left one.
fn single_marks(alloc: Global, digest: Dig, left: Marks) -> Result<Marks, NoMemory>
    ensures { IfOk result (λ m. marks_view m ≡ mark_single digest (marks_view left)) }
{
    Ok(Marks::Single(digest, Box::new(alloc, left)?))
}

/// The digests of all nodes of a pruned tree. Each node is hashed once.
#[tactic(auto, unfolding(crate::specs::Digested::marks_of, crate::specs::Pruned::digest_of))]
pub(crate) fn marks_of<D: Digester>(alloc: Global, p: &Pruned) -> Result<Marks, NoMemory>
    ensures { IfOk result (λ m. marks_view m ≡ marks_of D.digest_of (tree_view p.now)) }
{
    match p {
        Pruned::Hidden(_) => Ok(Marks::Absent),
        Pruned::Leaf(text) => Ok(Marks::Leaf(D::tagged(0, &[], text.as_slice()))),
        Pruned::Node(left, right) => {
            let a = marks_of::<D>(alloc, left)?;
            let b = marks_of::<D>(alloc, right)?;
            let digest = D::tagged(1, &digest_with::<D>(left, &a), &digest_with::<D>(right, &b));
            node_marks(alloc, digest, a, b)
        }
        Pruned::Single(left) => {
            let a = marks_of::<D>(alloc, left)?;
            let digest = D::tagged(1, &[], &digest_with::<D>(left, &a));
            single_marks(alloc, digest, a)
        }
    }
}
