//! The laws of vouching. Each function has an empty body, and its contract is the law.
ghost use Rattle.std.specs.Prelude.{◌≡◌, ◌<◌, ◌≤◌, ℕ, List, Some, false, length, nat_eq, slice_get};
ghost use Rattle.std.specs.List.{list_any};
ghost use Rattle.vouch_rule.specs.Vouching.{IsVouchPoint, vouchers};
ghost use Rattle.vouch_rule.specs.declared.vouch.Vouch.{Vouch};

/// There is one vouch point.
pub fn points()
    ensures one { (ops : List Vouch) (have f a b : ℕ) → IsVouchPoint ops have f a → IsVouchPoint ops have f b → a ≡ b }
{}

/// Where more users vouch from a position than a list has, an operation that does so is of a user who isn't listed.
pub fn outsiders()
    ensures { (ops : List Vouch) (m : ℕ) (users : List ℕ) → length users < vouchers ops m
        → (i : ℕ) × (o : Vouch) × (slice_get ops i ≡ Some o) × (m ≤ o.size)
        × (list_any (nat_eq o.author) users ≡ false) }
{}
