//! The laws of the audit. Each function has an empty body, and its contract is the law.
ghost use Rattle.std.specs.Prelude.{◌≡◌, ◌<◌, ◌++◌, ◌∷◌, ℕ, List, None, Some, slice_get, take};
ghost use Rattle.std.specs.List.{AllByRecursion};
ghost use Rattle.fr_digest.specs.Collision.{Collides, Strings};
ghost use Rattle.fr_digest.specs.Digest.{Digest};
ghost use Rattle.op_types.specs.declared.op.Leaf.{Leaf};
ghost use Rattle.world_audit.specs.Comparisons.{Agrees, Comparison, all_compared, compared, first_difference, needed, order, strings_of};
ghost use Rattle.world_audit.specs.Ready.{AreReady};
ghost use Rattle.world_audit.specs.Sound.{AllAgree, NothingUnsigned, Sound};
ghost use Rattle.world_audit.specs.Story.{story};
ghost use Rattle.world_audit.specs.Truth.{ShowsTruth};
ghost use Rattle.world_book.specs.declared.took.Took.{Took};
ghost use Rattle.world_book.specs.declared.world.World.{World};
ghost use Rattle.world_book.specs.Kept.{Kept};
ghost use Rattle.world_book.specs.Records.{IsIn, records_of};

/// Where records are kept as honest clients keep them, each operation that one shows of an honest author is one that
/// the author signed, and no comparison differs, every history with a ground is sound; and on a wall where as many
/// users may be in league with the server as there are rogues, every record has a ground. It is enough to compare the
/// records in their order.
pub fn audits()
    ensures sound { (d : Digest) (w : World) → Kept d w → NothingUnsigned w → AllAgree d w → Sound d w }
    ensures agree { (d : Digest) (w : World) → Kept d w → AllByRecursion (Agrees d) (all_compared w) → AllAgree d w }
{}

/// Where nothing is unsigned, each comparison is one whose difference gives two strings of one digest, if all before it
/// agree: its tree is one of the list's length and root, its lists are of one length and root, or its access list has
/// the digest of the state. The first that differs is none where all agree; it is the one in front of which all agree;
/// and its strings are two of one digest.
pub fn differences()
    ensures ready { (d : Digest) (w : World) → Kept d w → NothingUnsigned w → AreReady d (all_compared w) }
    ensures none { (d : Digest) (cs : List Comparison) → AllByRecursion (Agrees d) cs → first_difference d cs ≡ None }
    ensures first { (d : Digest) (before : List Comparison) (c : Comparison) (behind : List Comparison) (s : Strings)
        → AllByRecursion (Agrees d) before → strings_of d c ≡ Some s
        → first_difference d (before ++ c ∷ behind) ≡ Some s }
    ensures collides { (d : Digest) (cs : List Comparison) (s : Strings) → first_difference d cs ≡ Some s
        → Collides d s }
{}

/// In the order of records each that has a history stands once, and no other does, and each stands behind those that
/// its comparisons speak of.
pub fn orders()
    ensures each { (d : Digest) (w : World) → Kept d w → (r : Took) (L : List Leaf) → IsIn (records_of w) r
        → story w r ≡ Some L → IsIn (order w) r }
    ensures only { (d : Digest) (w : World) → Kept d w → (r : Took) → IsIn (order w) r
        → IsIn (records_of w) r × ((L : List Leaf) × (story w r ≡ Some L)) }
    ensures once { (d : Digest) (w : World) → Kept d w → (i j : ℕ) (r : Took) → slice_get (order w) i ≡ Some r
        → slice_get (order w) j ≡ Some r → i ≡ j }
    ensures behind { (d : Digest) (w : World) → Kept d w → (i : ℕ) (r s : Took) → slice_get (order w) i ≡ Some r
        → IsIn (needed w r) s → (j : ℕ) × (j < i) × (slice_get (order w) j ≡ Some s) }
{}

/// Where all records of a wall show one history, the history of each that has one is a front of it, and all of its
/// comparisons agree, whatever the digest.
pub fn truths()
    ensures front { (d : Digest) (w : World) (wall : ℕ) (H : List Leaf) → Kept d w → ShowsTruth d w wall H
        → (r : Took) (L : List Leaf) → IsIn (records_of w) r → r.wall ≡ wall → story w r ≡ Some L
        → L ≡ take r.size H }
    ensures agree { (d : Digest) (w : World) (wall : ℕ) (H : List Leaf) → Kept d w → ShowsTruth d w wall H
        → (r : Took) (L : List Leaf) → IsIn (records_of w) r → r.wall ≡ wall → story w r ≡ Some L
        → AllByRecursion (Agrees d) (compared w r L) }
{}
