//! The laws of the versions of a history. Each function has an empty body, and its contract is the law.
ghost use Rattle.fr_bytes.specs.Bytes.{Text};
ghost use Rattle.hist_tree.specs.Nodes.{node_texts};
ghost use Rattle.std.specs.Prelude.{◌≡◌, ◌<◌, ◌≤◌, ◌+◌, ◌-◌, ◌++◌, ◌^◌, ℕ, List, length, map, suc, take};
ghost use Rattle.tree_model.specs.History.{depth, pair_string, part, root, root_of_all, single_string};

use fr_digest::Digester;
use tree_model::HasText;

/// An older version that is read through a newer history has the root of its own list.
pub fn versions<D: Digester, T: HasText>()
    ensures own { (items : List T) (v : ℕ) → root D.digest_of (map T.text_of items) v
        ≡ root_of_all D.digest_of (map T.text_of (take v items)) }
    ensures older { (items more : List T) (v : ℕ) → v ≤ length items
        → root D.digest_of (map T.text_of (items ++ more)) v ≡ root D.digest_of (map T.text_of items) v }
{}

/// The nodes of a version: the top one is its root, the others are the halves of those above them, and further
/// items don't change them.
pub fn nodes<D: Digester>()
    ensures top { (M : List Text) (v : ℕ) → v ≤ length M
        → part D.digest_of (depth v) (node_texts v (depth v) 0 M) ≡ root D.digest_of M v }
    ensures single { (size j start : ℕ) (M : List Text) → size ≤ length M → size - start ≤ 2 ^ j
        → part D.digest_of (suc j) (node_texts size (suc j) start M)
        ≡ D.digest_of (single_string (part D.digest_of j (node_texts size j start M))) }
    ensures pair { (size j start : ℕ) (M : List Text) → size ≤ length M → 2 ^ j < size - start
        → part D.digest_of (suc j) (node_texts size (suc j) start M)
        ≡ D.digest_of (pair_string (part D.digest_of j (node_texts size j start M))
        (part D.digest_of j (node_texts size j (start + 2 ^ j) M))) }
    ensures older { (size level start : ℕ) (M more : List Text) → size ≤ length M
        → node_texts size level start (M ++ more) ≡ node_texts size level start M }
{}
