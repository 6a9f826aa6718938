ghost use Rattle.std.specs.Prelude.{◌≡◌, ◌≢◌, ◌<◌, ◌≤◌, ◌++◌, ◌∷◌, [], ℕ, List, None, Some, option_map, if◌then◌else◌};
ghost use Rattle.std.specs.List.{Contains};
ghost use Rattle.tree_model.specs.declared.entry.Entry.{Entry};
ghost use Rattle.tree_model.specs.AccessList.{IsRising, entry_of, greater, is_above, numbered, smaller, top_of, with_entry, with_next, without};

/// A list whose users rise is the smaller users of one of its entries, the entry and the greater users.
pub fn around()
    ensures { (es : List Entry) (t : Entry)
        → IsRising es → Contains es t → smaller t.user es ++ (t ∷ greater t.user es) ≡ es }
{}

/// Smaller and greater users of smaller and greater users.
pub fn parts_of_parts()
    ensures smaller { (u t : ℕ) (es : List Entry) → u ≤ t → smaller u (smaller t es) ≡ smaller u es }
    ensures greater { (u t : ℕ) (es : List Entry) → t ≤ u → greater u (greater t es) ≡ greater u es }
    ensures between { (u t : ℕ) (es : List Entry) → smaller u (greater t es) ≡ greater t (smaller u es) }
    ensures nobody { (u t : ℕ) (es : List Entry) → u ≤ t → smaller u (greater t es) ≡ [] }
{}

/// The parts of two lists in a row, round an entry of the first or of the second.
pub fn joined()
    ensures smaller_first { (xs ys : List Entry) (s : Entry) → IsRising (xs ++ ys)
        → Contains xs s → smaller s.user (xs ++ ys) ≡ smaller s.user xs }
    ensures greater_first { (xs ys : List Entry) (s : Entry) → IsRising (xs ++ ys)
        → Contains xs s → greater s.user (xs ++ ys) ≡ greater s.user xs ++ ys }
    ensures smaller_second { (xs ys : List Entry) (t : Entry) → IsRising (xs ++ ys)
        → Contains ys t → smaller t.user (xs ++ ys) ≡ xs ++ smaller t.user ys }
    ensures greater_second { (xs ys : List Entry) (t : Entry) → IsRising (xs ++ ys)
        → Contains ys t → greater t.user (xs ++ ys) ≡ greater t.user ys }
    ensures top { (xs ys : List Entry) (s t : Entry) → top_of xs ≡ Some s → top_of ys ≡ Some t
        → top_of (xs ++ ys) ≡ Some (if is_above t.user s.user then t else s) }
{}

/// The parts of a set with a user's next number set.
pub fn next_set()
    ensures smaller { (u user next : ℕ) (es : List Entry)
        → smaller u (with_next user next es) ≡ with_next user next (smaller u es) }
    ensures greater { (u user next : ℕ) (es : List Entry)
        → greater u (with_next user next es) ≡ with_next user next (greater u es) }
    ensures top { (user next : ℕ) (es : List Entry)
        → top_of (with_next user next es) ≡ option_map (numbered user next) (top_of es) }
    ensures absent { (user next : ℕ) (es : List Entry)
        → entry_of es user ≡ None → with_next user next es ≡ es }
{}

/// The parts of a set with an entry.
pub fn entry_added()
    ensures smaller { (u : ℕ) (e : Entry) (es : List Entry)
        → e.user < u → smaller u (with_entry e es) ≡ with_entry e (smaller u es) }
    ensures smaller_same { (u : ℕ) (e : Entry) (es : List Entry)
        → u ≤ e.user → smaller u (with_entry e es) ≡ smaller u es }
    ensures greater { (u : ℕ) (e : Entry) (es : List Entry)
        → u < e.user → greater u (with_entry e es) ≡ with_entry e (greater u es) }
    ensures greater_same { (u : ℕ) (e : Entry) (es : List Entry)
        → e.user ≤ u → greater u (with_entry e es) ≡ greater u es }
    ensures top { (e : Entry) (es : List Entry) (t : Entry) → IsRising es → entry_of es e.user ≡ None
        → top_of es ≡ Some t → top_of (with_entry e es) ≡ Some (if is_above e.user t.user then e else t) }
{}

/// The parts of a set without a user.
pub fn user_dropped()
    ensures smaller { (u user : ℕ) (es : List Entry)
        → smaller u (without user es) ≡ without user (smaller u es) }
    ensures greater { (u user : ℕ) (es : List Entry)
        → greater u (without user es) ≡ without user (greater u es) }
    ensures top { (user : ℕ) (es : List Entry) (t : Entry) → IsRising es
        → top_of es ≡ Some t → t.user ≢ user → top_of (without user es) ≡ Some t }
    ensures around { (es : List Entry) (t : Entry) → IsRising es
        → Contains es t → without t.user es ≡ smaller t.user es ++ greater t.user es }
{}
