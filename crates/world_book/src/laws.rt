//! The laws of kept records. Each function has an empty body, and its contract is the law.
ghost use Rattle.std.specs.Prelude.{◌≡◌, ◌<◌, ◌++◌, ◌∷◌, [], ℕ, List, Some, false, map, true};
ghost use Rattle.std.specs.List.{AllByRecursion};
ghost use Rattle.fr_digest.specs.Digest.{Digest};
ghost use Rattle.hist_proof.specs.Pruned.{Tree};
ghost use Rattle.hist_proof.specs.Spelling.{IsSpelled};
ghost use Rattle.check_rules.specs.Heard.{holds_leaves};
ghost use Rattle.lms_tree.specs.Valid.{Key};
ghost use Rattle.op_types.specs.declared.op.Op.{Op};
ghost use Rattle.world_book.specs.declared.book.UserBook.{UserBook};
ghost use Rattle.world_book.specs.declared.took.Signed.{Signed};
ghost use Rattle.world_book.specs.declared.took.Took.{Took};
ghost use Rattle.world_book.specs.declared.world.WallNote.{WallNote};
ghost use Rattle.world_book.specs.declared.world.World.{World};
ghost use Rattle.world_book.specs.Kept.{HoldsLeaves, IsRecord, IsSigned, Kept, KeptBook};
ghost use Rattle.world_book.specs.Records.{IsIn, Rise, Signs, is_honest, keys_of, record_of, records_of};

/// In a kept world a record is found by its user, its wall and its size, what is found is such a record, and it is of a
/// user who is no rogue.
pub fn look_ups()
    ensures found { (d : Digest) (w : World) → Kept d w → (r : Took) → IsIn (records_of w) r
        → record_of w r.user r.wall r.size ≡ Some r }
    ensures only { (d : Digest) (w : World) → Kept d w → (user wall size : ℕ) (s : Took)
        → record_of w user wall size ≡ Some s
        → IsIn (records_of w) s × (s.user ≡ user) × (s.wall ≡ wall) × (s.size ≡ size) }
    ensures honest { (d : Digest) (w : World) → Kept d w → (r : Took) → IsIn (records_of w) r
        → is_honest w r.user ≡ true }
{}

/// In a kept world there is a record of each history that one begins with: that which its user had accepted of the wall
/// before, and that whose view its user's operation embeds.
pub fn views()
    ensures before { (d : Digest) (w : World) → Kept d w → (r : Took) → IsIn (records_of w) r → 0 < r.have
        → (p : Took) × (record_of w r.user r.wall r.have ≡ Some p) }
    ensures embedded { (d : Digest) (w : World) → Kept d w → (user : ℕ) (op : Op) → Signs w user op
        → 0 < op.view.size
        → (s : Took) × (record_of w user op.wall op.view.size ≡ Some s) × (s.root ≡ op.view.root) }
{}

/// A book of a user who is no rogue stays kept with one record more, behind the others, and with one more signed
/// operation; and books that are kept with the same notes, and with the keys that they hold, are a kept world.
pub fn books()
    ensures took { (d : Digest) (notes : List WallNote) (keys : List (ℕ × Key)) (book : UserBook) (t : Took)
        → KeptBook d notes keys book → book.rogue ≡ false → IsRecord d notes keys book.user book.took t
        → KeptBook d notes keys (record book { took = book.took ++ t ∷ [] }) }
    ensures signed { (d : Digest) (notes : List WallNote) (keys : List (ℕ × Key)) (book : UserBook) (s : Signed)
        → KeptBook d notes keys book → book.rogue ≡ false → IsSigned book book.signed s
        → KeptBook d notes keys (record book { signed = book.signed ++ s ∷ [] }) }
    ensures world { (d : Digest) (w : World) (keys : List (ℕ × Key)) → Rise (map (λ (b : UserBook). b.user) w.users)
        → Rise (map (λ (n : WallNote). n.wall) w.walls) → keys_of w.users ≡ keys
        → AllByRecursion (KeptBook d w.walls keys) w.users → Kept d w }
{}

/// A pruned tree that has a spelling, and each of whose texts can be read as a leaf, holds the texts of leaves alone.
pub fn spellings()
    ensures { (p : Tree) → IsSpelled p → holds_leaves p ≡ true → HoldsLeaves p }
{}
