//! The laws of lawful histories. Each function has an empty body, and its contract is the law.
ghost use Rattle.op_types.specs.declared.op.Leaf.{Leaf};
ghost use Rattle.op_types.specs.declared.op.Op.{Op};
ghost use Rattle.op_types.specs.Spelling.{IsLeaf};
ghost use Rattle.std.specs.List.{AllByRecursion};
ghost use Rattle.std.specs.Prelude.{◌≡◌, ◌+◌, ◌<◌, ◌≤◌, ◌↔◌, ◌++◌, ◌∷◌, [], ℕ, List, None, Option, Some, length, slice_get, take, true};
ghost use Rattle.fr_digest.specs.Digest.{Digest};
ghost use Rattle.tree_model.specs.AccessList.{FitsChange, IsRising, dict};
ghost use Rattle.wall_law.specs.declared.state.State.{State};
ghost use Rattle.wall_law.specs.Law.{law};
ghost use Rattle.wall_law.specs.Lawful.{ComesNext, IsLawfulAt, Lawful, Told, told_of};
ghost use Rattle.wall_law.specs.Position.{Finding, IsOf, PositionPasses, position_refusal};
ghost use Rattle.wall_law.specs.State.{HasOwner, IsOnlyOwner, after, change_of, state_of};

/// What holds of the state after any leaves: it is made leaf by leaf, its users rise, and its epoch is
/// at most the number of the leaves.
pub fn states()
    ensures added { (owner : ℕ) (leaves : List Leaf) (leaf : Leaf)
        → state_of owner (leaves ++ leaf ∷ []) ≡ after (state_of owner leaves) leaf.op }
    ensures rising { (owner : ℕ) (leaves : List Leaf) → IsRising (state_of owner leaves).entries }
    ensures epoch { (owner : ℕ) (leaves : List Leaf) → (state_of owner leaves).epoch ≤ length leaves }
{}

/// Each prefix of a lawful history is lawful, and each of its embedded views covers earlier operations
/// alone. `d` is any digest.
pub fn histories()
    ensures prefix { (d : Digest) (owner wall : ℕ) (leaves : List Leaf) (n : ℕ) → Lawful d owner wall leaves
        → Lawful d owner wall (take n leaves) }
    ensures view { (d : Digest) (owner wall : ℕ) (leaves : List Leaf) (k : ℕ) (leaf : Leaf)
        → Lawful d owner wall leaves → slice_get leaves k ≡ Some leaf → leaf.op.view.size ≤ k }
{}

/// Nothing stands in the way of a leaf exactly where it passes. Over the look-ups of a state's own entries, the digest
/// of their list and the digest of the list that the operation leaves, a leaf that passes comes next in that state; and
/// one that comes next, is signed and embeds a view of this history passes.
pub fn positions()
    ensures exactly { (before : Told) (wall k : ℕ) (leaf : Leaf) (f : Finding)
        → (position_refusal before wall k leaf f ≡ None) ↔ PositionPasses before wall k leaf f }
    ensures lawful { (d : Digest) (s : State) (wall k : ℕ) (leaf : Leaf) (f : Finding) → IsOf d s leaf.op f
        → PositionPasses (told_of d s) wall k leaf f → ComesNext d s wall k leaf }
    ensures passes { (d : Digest) (s : State) (wall k : ℕ) (leaf : Leaf) (f : Finding) → IsOf d s leaf.op f
        → f.signed ≡ true → f.list ≡ dict d s.entries → f.seen ≡ true → ComesNext d s wall k leaf
        → PositionPasses (told_of d s) wall k leaf f }
{}

/// Where the law has no refusal, the author is in the access list, an admitted user isn't, and a removed
/// user is in it and isn't the author.
pub fn changes()
    ensures { (s : State) (wall k : ℕ) (op : Op) → law s wall k op ≡ None
        → FitsChange s.entries op.author (change_of op.kind) }
{}

/// The owner stays in the access list, in the owner's role: over each operation that the law lets stand,
/// and so over every lawful history, whose list is never empty. Nobody else has that role after any leaves
/// that have a spelling, since no admission that has one gives it.
pub fn owners()
    ensures stays { (s : State) (owner wall k : ℕ) (op : Op) → law s wall k op ≡ None → HasOwner owner s.entries
        → HasOwner owner (after s op).entries }
    ensures listed { (d : Digest) (owner wall : ℕ) (leaves : List Leaf) → Lawful d owner wall leaves
        → HasOwner owner (state_of owner leaves).entries }
    ensures some { (d : Digest) (owner wall : ℕ) (leaves : List Leaf) → Lawful d owner wall leaves
        → 0 < length (state_of owner leaves).entries }
    ensures alone { (owner : ℕ) (leaves : List Leaf) → AllByRecursion IsLeaf leaves
        → IsOnlyOwner owner (state_of owner leaves).entries }
{}

/// Lawful histories leaf by leaf. The empty history is lawful, and one with a leaf more is lawful exactly
/// where the leaf comes next. Whether a position is lawful depends on the leaves up to it alone, so a
/// history whose first leaves are lawful and whose later positions are lawful one by one is lawful.
pub fn extensions()
    ensures empty { (d : Digest) (owner wall : ℕ) → Lawful d owner wall [] }
    ensures added { (d : Digest) (owner wall : ℕ) (leaves : List Leaf) (leaf : Leaf)
        → Lawful d owner wall (leaves ++ leaf ∷ []) ↔ Lawful d owner wall leaves
        × ComesNext d (state_of owner leaves) wall (length leaves) leaf }
    ensures next { (owner : ℕ) (leaves : List Leaf) (k : ℕ) (leaf : Leaf) → slice_get leaves k ≡ Some leaf
        → state_of owner (take (k + 1) leaves) ≡ after (state_of owner (take k leaves)) leaf.op }
    ensures position { (d : Digest) (owner wall : ℕ) (leaves : List Leaf) (k : ℕ) (leaf : Leaf)
        → slice_get leaves k ≡ Some leaf
        → IsLawfulAt d owner wall leaves k leaf ↔ ComesNext d (state_of owner (take k leaves)) wall k leaf }
    ensures prefix { (d : Digest) (owner wall : ℕ) (left right : List Leaf) (n k : ℕ) (leaf : Leaf)
        → take n left ≡ take n right → k < n → IsLawfulAt d owner wall left k leaf
        → IsLawfulAt d owner wall right k leaf }
    ensures rest { (d : Digest) (owner wall : ℕ) (leaves : List Leaf) (n : ℕ) → Lawful d owner wall (take n leaves)
        → ((k : ℕ) (leaf : Leaf) → n ≤ k → slice_get leaves k ≡ Some leaf → IsLawfulAt d owner wall leaves k leaf)
        → Lawful d owner wall leaves }
{}
