//! The laws of the least pruned trees. Each function has an empty body, and its contract is the law.
ghost use Rattle.fr_bytes.specs.Bytes.{Text};
ghost use Rattle.hist_proof.specs.Pruned.{Prunes, at, cut};
ghost use Rattle.std.specs.List.{Contains};
ghost use Rattle.std.specs.Prelude.{◌≡◌, ◌<◌, ◌≤◌, Bool, ℕ, IsSome, List, None, Some, drop, length, map};
ghost use Rattle.std.specs.Prelude.{replicate, take};
ghost use Rattle.tree_model.specs.History.{depth, part, root};
ghost use Rattle.tree_prune.specs.LeastHistory.{from_on, least, listed, marked, slots};

use fr_digest::Digester;

/// The least pruned tree prunes its list, shows exactly the marked positions, and gives the root of each listed
/// version.
pub fn least_trees<D: Digester>()
    ensures prunes { (M : List Text) (ms : List Bool) (vs : List ℕ) → 0 < length M
        → Prunes D.digest_of (least (part D.digest_of) (depth (length M)) M ms vs) M }
    ensures shows { (M : List Text) (ms : List Bool) (vs : List ℕ) → 0 < length M → length ms ≡ length M
        → slots (least (part D.digest_of) (depth (length M)) M ms vs) (length M) ≡ marked M ms }
    ensures cuts { (M : List Text) (ms : List Bool) (vs : List ℕ) (v : ℕ) → 0 < v → v ≤ length M → Contains vs v
        → IsSome (cut (least (part D.digest_of) (depth (length M)) M ms vs) (length M) v) }
    ensures roots { (M : List Text) (ms : List Bool) (vs : List ℕ) (v : ℕ) → 0 < v → v ≤ length M → Contains vs v
        → at D.digest_of (least (part D.digest_of) (depth (length M)) M ms vs) (length M) v
        ≡ Some (root D.digest_of M v) }
{}

/// The marks of `n` positions are as many. Where the positions from `a` on are marked, their texts are shown, and no
/// others are.
pub fn shown_lists()
    ensures from_on_length { (a n : ℕ) → a ≤ n → length (from_on a n) ≡ n }
    ensures listed_length { (positions : List ℕ) (n : ℕ) → length (listed positions n) ≡ n }
    ensures hidden { (M : List Text) (a : ℕ) → a ≤ length M
        → take a (marked M (from_on a (length M))) ≡ replicate a None }
    ensures shown { (M : List Text) (a : ℕ) → a ≤ length M
        → drop a (marked M (from_on a (length M))) ≡ map (λ t. Some t) (drop a M) }
{}
