ghost use Rattle.fr_digest.specs.Digest.{IsDigest};
ghost use Rattle.std.specs.Prelude.{◌≡◌, ◌≢◌, ◌<◌, ◌⊎◌, ◌↔◌, [], All, Bool, ℕ, List, ◌∷◌, ◌++◌, None, Option, Some, IfSome, filter, length, map, option_map, true, false};
ghost use Rattle.std.specs.List.{Contains};
ghost use Rattle.tree_model.specs.declared.entry.Entry.{Entry};
ghost use Rattle.tree_model.specs.AccessList.{IsInRange, IsRising, IsTop, ListChange, changed_set, dict, entry_of, greatest, greater, is_above, node_text, set_digest, smaller, top_of, with_entry, with_next, without};
ghost use Rattle.tree_model.specs.Treap.{IsTreap, Treap, in_order, treap_digest};

use crate::entry::Entry;
use fr_digest::Digester;

/// Priorities are a strict total order of the users, whatever their hashes are.
pub fn priorities()
    ensures irreflexive { (a : ℕ) → is_above a a ≡ false }
    ensures transitive { (a b c : ℕ) → is_above a b ≡ true → is_above b c ≡ true → is_above a c ≡ true }
    ensures total { (a b : ℕ) → (a ≡ b) ⊎ ((is_above a b ≡ true) ⊎ (is_above b a ≡ true)) }
{}

/// An entry is the top of a set exactly where it is a member and nobody's priority is above it. It is
/// the top of each part that has it.
pub fn tops()
    ensures exactly { (es : List Entry) (t : Entry) → IsRising es → (top_of es ≡ Some t) ↔ IsTop es t }
    ensures none { (es : List Entry) → top_of es ≡ None → es ≡ [] }
    ensures part { (p : Entry → Bool) (es : List Entry) (t : Entry)
        → IsRising es → top_of es ≡ Some t → p t ≡ true → top_of (filter p es) ≡ Some t }
{}

/// In a list whose users rise a user's entry is the member with that user, so the list is known by its
/// look-ups.
pub fn members()
    ensures exactly { (es : List Entry) (u : ℕ) (e : Entry)
        → IsRising es → (entry_of es u ≡ Some e) ↔ (Contains es e × (e.user ≡ u)) }
    ensures same { (xs ys : List Entry)
        → IsRising xs → IsRising ys → ((u : ℕ) → entry_of xs u ≡ entry_of ys u) → xs ≡ ys }
{}

/// The digest of a set is that of its entry of greatest priority over the sets of the smaller and of
/// the greater users. Where the set isn't empty it is the digest of the access list.
pub fn digests<D: Digester>()
    ensures node { (e : Entry) (es : List Entry) → set_digest D.digest_of (e ∷ es)
        ≡ Some (D.digest_of (node_text (greatest e es)
        (set_digest D.digest_of (smaller (greatest e es).user (e ∷ es)))
        (set_digest D.digest_of (greater (greatest e es).user (e ∷ es))))) }
    ensures top { (es : List Entry) (t : Entry) → top_of es ≡ Some t → set_digest D.digest_of es
        ≡ Some (D.digest_of (node_text t
        (set_digest D.digest_of (smaller t.user es)) (set_digest D.digest_of (greater t.user es)))) }
    ensures list { (es : List Entry) → 0 < length es → set_digest D.digest_of es ≡ Some (dict D.digest_of es) }
    ensures size { (es : List Entry) → 0 < length es → IsDigest (dict D.digest_of es) }
{}

/// The string of a node tells its entry and its children's digests.
pub fn node_strings()
    ensures one_to_one { (e f : Entry) (l r m q : Option (List ℕ))
        → IsInRange e → IsInRange f → IfSome l IsDigest → IfSome m IsDigest
        → node_text e l r ≡ node_text f m q → (e ≡ f) × (l ≡ m) × (r ≡ q) }
{}

/// The numbers of an entry fit their places in a node's string.
pub fn range(entry: Entry)
    ensures { IsInRange entry }
{}

/// The same of each entry of a slice. The loop is for the proof alone and computes nothing.
pub fn ranges(entries: &[Entry])
    ensures { All IsInRange entries.now }
{
    for entry in entries {
        range(*entry);
    }
}

/// The set that an operation leaves is again one whose users rise.
pub fn changes()
    ensures { (es : List Entry) (author next : ℕ) (change : ListChange)
        → IsRising es → IsRising (changed_set es author next change) }
{}

/// A list whose users rise is known by its members, so its digest depends on the set alone.
pub fn sets<D: Digester>()
    ensures same { (xs ys : List Entry) → IsRising xs → IsRising ys
        → ((e : Entry) → Contains xs e → Contains ys e) → ((e : Entry) → Contains ys e → Contains xs e)
        → xs ≡ ys }
    ensures digest { (xs ys : List Entry) → IsRising xs → IsRising ys
        → ((e : Entry) → Contains xs e → Contains ys e) → ((e : Entry) → Contains ys e → Contains xs e)
        → set_digest D.digest_of xs ≡ set_digest D.digest_of ys }
{}

/// Each set has one treap, and the digest of the set is that of its treap.
pub fn treaps<D: Digester>()
    ensures some { (es : List Entry) → IsRising es → (t : Treap) × IsTreap t × (in_order t ≡ es) }
    ensures one { (t s : Treap) → IsTreap t → IsTreap s → in_order t ≡ in_order s → t ≡ s }
    ensures digest { (t : Treap) → IsTreap t → treap_digest D.digest_of t ≡ set_digest D.digest_of (in_order t) }
    ensures dict { (t : Treap) → IsTreap t → 0 < length (in_order t)
        → treap_digest D.digest_of t ≡ Some (dict D.digest_of (in_order t)) }
{}

/// What a change leaves of each user's entry.
pub fn look_ups()
    ensures next_own { (user next : ℕ) (es : List Entry)
        → entry_of (with_next user next es) user
        ≡ option_map (λ (e : Entry). record e { next = next }) (entry_of es user) }
    ensures next_other { (user next u : ℕ) (es : List Entry)
        → u ≢ user → entry_of (with_next user next es) u ≡ entry_of es u }
    ensures added_own { (e : Entry) (es : List Entry) → entry_of (with_entry e es) e.user ≡ Some e }
    ensures added_other { (e : Entry) (u : ℕ) (es : List Entry)
        → u ≢ e.user → entry_of (with_entry e es) u ≡ entry_of es u }
    ensures dropped_own { (user : ℕ) (es : List Entry) → entry_of (without user es) user ≡ None }
    ensures dropped_other { (user u : ℕ) (es : List Entry)
        → u ≢ user → entry_of (without user es) u ≡ entry_of es u }
{}
