//! The laws of pruned access lists. Each function has an empty body, and its contract is the law.
ghost use Rattle.dict_proof.specs.Keeping.{KeepsAuthor};
ghost use Rattle.dict_proof.specs.Spelling.{IsSpelled, Spells, list_text};
ghost use Rattle.fr_bytes.specs.Bytes.{Text};
ghost use Rattle.pruned_list.specs.PrunedList.{HasDigests, PrunedList, PrunesDict, absent, byte_count, changed, found, hid, seek};
ghost use Rattle.std.specs.Prelude.{◌≡◌, ◌⊎◌, ℕ, List, Some, length};
ghost use Rattle.tree_model.specs.AccessList.{FitsChange, IsRising, ListChange, entry_of};
ghost use Rattle.tree_model.specs.declared.entry.Entry.{Entry};

use fr_digest::Digester;

/// No bytes spell two pruned lists, no pruned list has two spellings, and in one that has a spelling each hidden part
/// has a digest's length, so that its spelling has 33 bytes for a hidden part and 11 for an entry.
pub fn one_spelling()
    ensures one_value { (p q : PrunedList) (bytes : Text) → Spells p bytes → Spells q bytes → p ≡ q }
    ensures one_text { (p : PrunedList) (a b : Text) → Spells p a → Spells p b → a ≡ b }
    ensures digests { (p : PrunedList) → IsSpelled p → HasDigests p }
    ensures size { (p : PrunedList) → IsSpelled p → length (list_text p) ≡ byte_count p }
{}

/// A search in what prunes a set finds what the set has, or meets a hidden part; and an operation that fits the set
/// doesn't remove its author, so that it can be applied to what prunes the set.
pub fn prunings<D: Digester>()
    ensures finds { (p : PrunedList) (E : List Entry) (u : ℕ) → IsRising E → PrunesDict D.digest_of p E
        → (seek p u ≡ hid) ⊎ (seek p u ≡ found (entry_of E u)) }
    ensures keeps { (p : PrunedList) (E : List Entry) (author : ℕ) (change : ListChange) → IsRising E
        → PrunesDict D.digest_of p E → FitsChange E author change → KeepsAuthor p author change }
{}

/// A change that doesn't remove its author leaves an entry.
pub fn some_entry()
    ensures { (p : PrunedList) (author next : ℕ) (change : ListChange) → (p ≡ absent → ⊥)
        → KeepsAuthor p author change → changed p author next change ≡ Some absent → ⊥ }
{}
