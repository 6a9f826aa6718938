//! The laws of the verdict. Each function has an empty body, and its contract is the law.
ghost use Rattle.std.specs.Prelude.{◌≡◌, ◌↔◌, ◌+◌, ◌-◌, ◌<◌, ◌≤◌, ℕ, List, None, Ok, Some, false, length, true};
ghost use Rattle.fr_bytes.specs.Bytes.{Text};
ghost use Rattle.fr_digest.specs.Digest.{Digest};
ghost use Rattle.op_types.specs.declared.op.Leaf.{Leaf};
ghost use Rattle.op_types.specs.declared.view.View.{View};
ghost use Rattle.hist_proof.specs.Pruned.{Tree, fits};
ghost use Rattle.hist_proof.specs.Shown.{shown};
ghost use Rattle.pruned_list.specs.PrunedList.{PrunedList};
ghost use Rattle.check_rules.specs.Accepted.{Accepted};
ghost use Rattle.check_rules.specs.Shown.{leaves_from, shows_from};
ghost use Rattle.check_rules.specs.Takes.{Says, Takes};
ghost use Rattle.check_rules.specs.Verdict.{answered_or, is_append, judged, late_verdict, shows_other_wall, taken};
ghost use Rattle.check_rules.specs.declared.asked.Asked.{Asked};
ghost use Rattle.check_rules.specs.declared.known.Known.{Known};

/// None of the rows over what is shown applies to a view that covers more than the client has accepted, and no
/// operation from `from` on is of another wall, exactly where the reply is one that is accepted.
pub fn acceptances()
    ensures accepted { (d : Digest) (known : Known) (view : View) (from : ℕ) (tree : Tree) (lists : List PrunedList)
        → known.size < view.size → shows_other_wall known view.size tree from ≡ false
        → late_verdict d known view from tree lists ≡ None → Accepted d known view from tree lists }
    ensures silent { (d : Digest) (known : Known) (view : View) (from : ℕ) (tree : Tree) (lists : List PrunedList)
        → Accepted d known view from tree lists → late_verdict d known view from tree lists ≡ None }
{}

/// A reply is taken exactly where its bytes say a view of the wall that is signed by the server, what is shown of it is
/// accepted, and the operation that was sent stands among the leaves. Where all but the last holds, the verdict is that
/// the operation is missing.
pub fn takings()
    ensures exactly { (d : Digest) (known : Known) (asked : Asked) (bytes : Text) (view : View) (from : ℕ) (tree : Tree)
        (leaves : List Leaf) (lists : List PrunedList)
        → (judged d known asked bytes ≡ Ok (taken view from tree leaves lists))
        ↔ Takes d known asked bytes view from tree leaves lists }
    ensures said { (d : Digest) (known : Known) (asked : Asked) (bytes : Text) (view : View) (from : ℕ) (tree : Tree)
        (leaves : List Leaf) (lists : List PrunedList)
        → Says d known (is_append asked) bytes view from tree leaves lists
        → judged d known asked bytes ≡ answered_or asked leaves (Ok (taken view from tree leaves lists)) }
{}
