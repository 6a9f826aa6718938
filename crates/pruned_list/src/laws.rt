//! The laws of pruned lists. Each function has an empty body, and its contract is the law.
ghost use Rattle.fr_digest.specs.Digest.{Digest};
ghost use Rattle.pruned_list.specs.Kept.{Keeps, entered, kept};
ghost use Rattle.pruned_list.specs.PrunedList.{PrunedList, PrunesDict, PrunesList, IsWhole, byte_count, changed, digest_of, found, in_order, insert, join, levels, part_digest, remove, seek, set_next, split};
ghost use Rattle.std.specs.Prelude.{◌≡◌, ◌*◌, ◌++◌, ◌≤◌, ℕ, Bool, IsSome, IsSomeAnd, List, None, Option, Some, length};
ghost use Rattle.pruned_list.specs.Whole.{treap_of};
ghost use Rattle.tree_model.specs.Treap.{IsTreap, in_order as treap_order};
ghost use Rattle.tree_model.specs.AccessList.{FitsChange, IsRising, ListChange, adds, changed_set, dict, drops, entry_of, greater, set_digest, smaller, with_entry, with_next, without};
ghost use Rattle.tree_model.specs.declared.entry.Entry.{Entry};

use fr_digest::Digester;

/// What prunes a set has its digest, and a search finds in it what the set has, or meets a hidden part.
pub fn prunings<D: Digester>()
    ensures digest { (p : PrunedList) (E : List Entry) → PrunesList D.digest_of p E
        → part_digest D.digest_of p ≡ set_digest D.digest_of E }
    ensures list { (p : PrunedList) (E : List Entry) → PrunesDict D.digest_of p E
        → digest_of D.digest_of p ≡ dict D.digest_of E }
    ensures finds { (p : PrunedList) (E : List Entry) (u : ℕ) (o : Option Entry)
        → IsRising E → PrunesList D.digest_of p E → seek p u ≡ found o → entry_of E u ≡ o }
{}

/// What an operation leaves of a pruning, where it meets nothing hidden, prunes the set that it leaves.
pub fn operations<D: Digester>()
    ensures { (p : PrunedList) (E : List Entry) (author next : ℕ) (change : ListChange) (q : PrunedList)
        → IsRising E → FitsChange E author change → PrunesDict D.digest_of p E
        → changed p author next change ≡ Some q → PrunesDict D.digest_of q (changed_set E author next change) }
{}

/// The same of each step of an operation.
pub fn steps<D: Digester>()
    ensures set_next { (user next : ℕ) (p : PrunedList) (E : List Entry) (q : PrunedList)
        → PrunesList D.digest_of p E → set_next user next p ≡ Some q
        → PrunesList D.digest_of q (with_next user next E) }
    ensures insert { (e : Entry) (p : PrunedList) (E : List Entry) (q : PrunedList)
        → IsRising E → entry_of E e.user ≡ None → PrunesList D.digest_of p E → insert e p ≡ Some q
        → PrunesList D.digest_of q (with_entry e E) }
    ensures remove { (user : ℕ) (p : PrunedList) (E : List Entry) (q : PrunedList)
        → IsRising E → PrunesList D.digest_of p E → remove user p ≡ Some q
        → PrunesList D.digest_of q (without user E) }
    ensures split { (p : PrunedList) (u : ℕ) (E : List Entry) (parts : PrunedList × PrunedList)
        → IsRising E → entry_of E u ≡ None → PrunesList D.digest_of p E → split p u ≡ Some parts
        → PrunesList D.digest_of parts.0 (smaller u E) × PrunesList D.digest_of parts.1 (greater u E) }
    ensures join { (a : PrunedList) (X : List Entry) → PrunesList D.digest_of a X
        → (b : PrunedList) (Y : List Entry) (q : PrunedList) → IsRising (X ++ Y) → PrunesList D.digest_of b Y
        → join a b ≡ Some q → PrunesList D.digest_of q (X ++ Y) }
{}

/// A whole list shows the set that it prunes, is the set's treap, and is the only whole list of the set. A search in
/// it finds what the set has, and an operation meets nothing hidden and leaves a whole list.
pub fn wholes<D: Digester>()
    ensures entries { (p : PrunedList) (E : List Entry) → IsRising E → IsWhole p → PrunesList D.digest_of p E
        → in_order p ≡ E }
    ensures treap { (p : PrunedList) (E : List Entry) → IsRising E → IsWhole p → PrunesList D.digest_of p E
        → IsTreap (treap_of p) × (treap_order (treap_of p) ≡ E) }
    ensures one { (p q : PrunedList) (E : List Entry) → IsWhole p → IsWhole q
        → PrunesList D.digest_of p E → PrunesList D.digest_of q E → p ≡ q }
    ensures finds { (p : PrunedList) (E : List Entry) (u : ℕ) → IsRising E → IsWhole p
        → PrunesList D.digest_of p E → seek p u ≡ found (entry_of E u) }
    ensures changed { (p : PrunedList) (author next : ℕ) (change : ListChange) → IsWhole p
        → IsSomeAnd (changed p author next change) IsWhole }
{}

/// What is kept of a pruning prunes the same set. Where it is of a whole list, and the nodes are kept that an
/// operation enters, the operation and its look-ups meet nothing hidden in it.
pub fn keeping<D: Digester>()
    ensures prunes { (keep : ℕ → Bool) (p : PrunedList) (E : List Entry) → PrunesList D.digest_of p E
        → PrunesList D.digest_of (kept D.digest_of keep p) E }
    ensures operation { (keep : ℕ → Bool) (p : PrunedList) (E : List Entry) (author next : ℕ) (change : ListChange)
        → IsRising E → IsWhole p → PrunesList D.digest_of p E → FitsChange E author change
        → Keeps keep (entered author change p) → IsSome (changed (kept D.digest_of keep p) author next change) }
    ensures author { (keep : ℕ → Bool) (p : PrunedList) (author : ℕ) (change : ListChange)
        → Keeps keep (entered author change p) → seek (kept D.digest_of keep p) author ≡ seek p author }
    ensures added { (keep : ℕ → Bool) (p : PrunedList) (author : ℕ) (e : Entry)
        → Keeps keep (entered author (adds e) p) → seek (kept D.digest_of keep p) e.user ≡ seek p e.user }
    ensures dropped { (keep : ℕ → Bool) (p : PrunedList) (author u : ℕ)
        → Keeps keep (entered author (drops u) p) → seek (kept D.digest_of keep p) u ≡ seek p u }
{}

/// What prunes a set has no more levels than the set has entries, and each entry takes 33 bytes of its spelling at
/// most.
pub fn sizes<D: Digester>()
    ensures levels { (p : PrunedList) (E : List Entry) → IsRising E → PrunesList D.digest_of p E
        → levels p ≤ length E }
    ensures bytes { (p : PrunedList) (E : List Entry) → IsRising E → PrunesList D.digest_of p E
        → byte_count p ≤ 33 * length E }
{}
