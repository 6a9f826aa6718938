//! The laws of pruned trees. Each function has an empty body, and its contract is the law.
ghost use Rattle.fr_bytes.specs.Bytes.{Text};
ghost use Rattle.hist_proof.specs.Pruned.{Prunes, Tree, at, cut, digest_of, fits};
ghost use Rattle.hist_proof.specs.Shown.{HasCollision, HasDigests, ShowsFrom, shown, straddled};
ghost use Rattle.hist_proof.specs.Spelling.{IsSpelled, Spells};
ghost use Rattle.std.specs.Prelude.{◌≡◌, ◌↔◌, ◌⊎◌, ◌<◌, ◌≤◌, ℕ, List, IsSome, Some, false, true, length};
ghost use Rattle.std.specs.Prelude.{slice_get, take};
ghost use Rattle.tree_model.specs.History.{root, root_of_all};

use fr_digest::Digester;

/// What prunes a list is a pruned tree of its length, has its root, and shows no other texts than the list's.
pub fn prunings<D: Digester>()
    ensures fits { (p : Tree) (M : List Text) → Prunes D.digest_of p M → fits p (length M) ≡ true }
    ensures digest { (p : Tree) (M : List Text) → Prunes D.digest_of p M
        → digest_of D.digest_of p ≡ root_of_all D.digest_of M }
    ensures texts { (p : Tree) (M : List Text) (k : ℕ) (t : Text) → Prunes D.digest_of p M
        → shown p (length M) k ≡ Some t → slice_get M k ≡ Some t }
{}

/// What is cut of a pruned tree is one of the version's size and shows the same, and has a spelling where
/// the tree has one; it prunes the front of a list that the tree prunes; and a cut of it is the tree's own.
pub fn cuts<D: Digester>()
    ensures fits { (p : Tree) (n v : ℕ) (c : Tree) → cut p n v ≡ Some c → fits c v ≡ true }
    ensures texts { (p : Tree) (n v : ℕ) (c : Tree) (k : ℕ) → cut p n v ≡ Some c → k < v
        → shown c v k ≡ shown p n k }
    ensures spelled { (p : Tree) (n v : ℕ) (c : Tree) → IsSpelled p → cut p n v ≡ Some c → IsSpelled c }
    ensures again { (p : Tree) (n v w : ℕ) (c : Tree) → cut p n v ≡ Some c → 0 < w → w ≤ v
        → cut c v w ≡ cut p n w }
    ensures front { (p : Tree) (M : List Text) (v : ℕ) (c : Tree) → Prunes D.digest_of p M
        → cut p (length M) v ≡ Some c → Prunes D.digest_of c (take v M) }
{}

/// There is a cut exactly where the tree fits its size, the version is one, and it ends within no hidden part; the
/// last version is the whole tree.
pub fn versions<D: Digester>()
    ensures exactly { (p : Tree) (n v : ℕ) → IsSome (cut p n v)
        ↔ ((fits p n ≡ true) × (0 < v) × (v ≤ n) × (straddled p n v ≡ false)) }
    ensures all { (p : Tree) (n : ℕ) → fits p n ≡ true → cut p n n ≡ Some p }
    ensures root { (p : Tree) (M : List Text) (v : ℕ) → Prunes D.digest_of p M → 0 < v → v ≤ length M
        → straddled p (length M) v ≡ false → at D.digest_of p (length M) v ≡ Some (root D.digest_of M v) }
    ensures none { (p : Tree) (n v : ℕ) → fits p n ≡ true → 0 < v → v ≤ n → straddled p n v ≡ true
        → at D.digest_of p n v ≡ None }
    ensures whole { (p : Tree) (n : ℕ) → fits p n ≡ true
        → at D.digest_of p n n ≡ Some (digest_of D.digest_of p) }
{}

/// A pruned tree of a list's length prunes the list where their digests agree, unless two strings collide; where it
/// shows the whole list; and where what is cut of it prunes the front of the list and it shows the rest.
pub fn agreement<D: Digester>()
    ensures digests { (p : Tree) (M : List Text) → HasDigests p → fits p (length M) ≡ true
        → digest_of D.digest_of p ≡ root_of_all D.digest_of M
        → Prunes D.digest_of p M ⊎ HasCollision D.digest_of }
    ensures whole { (p : Tree) (M : List Text) → fits p (length M) ≡ true → ShowsFrom p 0 M
        → Prunes D.digest_of p M }
    ensures rest { (p : Tree) (M : List Text) (v : ℕ) (c : Tree) → cut p (length M) v ≡ Some c
        → Prunes D.digest_of c (take v M) → ShowsFrom p v M → Prunes D.digest_of p M }
{}

/// No bytes spell two pruned trees, no pruned tree has two spellings, and in one that has a spelling each hidden part
/// has a digest's length.
pub fn one_spelling()
    ensures one_value { (p q : Tree) (bytes : Text) → Spells p bytes → Spells q bytes → p ≡ q }
    ensures one_text { (p : Tree) (a b : Text) → Spells p a → Spells p b → a ≡ b }
    ensures digests { (p : Tree) → IsSpelled p → HasDigests p }
{}
