ghost use Rattle.fr_digest.specs.Digest.{IsDigest};
ghost use Rattle.std.specs.Prelude.{◌≡◌, ◌<◌, ◌≤◌, ◌++◌, ◌∷◌, ◌^◌, [], ℕ, List, length, suc, take, drop};
ghost use Rattle.tree_model.specs.History.{depth, leaf_string, pair_string, part, root, root_of_all, single_string};

use fr_digest::Digester;

/// The equations of a node of height `j` over the texts of a tree.
pub fn nodes<D: Digester>()
    ensures leaf { (text : List ℕ) → part D.digest_of 0 (text ∷ []) ≡ D.digest_of (leaf_string text) }
    ensures single { (j : ℕ) (texts : List (List ℕ)) → length texts ≤ 2 ^ j
        → part D.digest_of (suc j) texts ≡ D.digest_of (single_string (part D.digest_of j texts)) }
    ensures pair { (j : ℕ) (texts : List (List ℕ)) → 2 ^ j < length texts
        → part D.digest_of (suc j) texts ≡ D.digest_of (pair_string
        (part D.digest_of j (take (2 ^ j) texts)) (part D.digest_of j (drop (2 ^ j) texts))) }
    ensures size { (j : ℕ) (texts : List (List ℕ)) → IsDigest (part D.digest_of j texts) }
{}

/// The height of a tree is the least that holds its leaves.
pub fn heights()
    ensures enough { (n : ℕ) → n ≤ 2 ^ depth n }
    ensures least { (n e : ℕ) → e < depth n → 2 ^ e < n }
{}

/// The root of a version depends on the texts of that version alone.
pub fn versions<D: Digester>()
    ensures value { (texts : List (List ℕ)) (v : ℕ) → v ≤ length texts
        → root D.digest_of texts v ≡ part D.digest_of (depth v) (take v texts) }
    ensures prefix { (left right : List (List ℕ)) (v : ℕ) → take v left ≡ take v right
        → root D.digest_of left v ≡ root D.digest_of right v }
    ensures added { (texts more : List (List ℕ)) (v : ℕ) → v ≤ length texts
        → root D.digest_of (texts ++ more) v ≡ root D.digest_of texts v }
    ensures all { (texts : List (List ℕ))
        → root D.digest_of texts (length texts) ≡ root_of_all D.digest_of texts }
    ensures size { (texts : List (List ℕ)) (v : ℕ) → IsDigest (root D.digest_of texts v) }
{}
