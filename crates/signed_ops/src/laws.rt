//! The laws of signed operations. Each function has an empty body, and its contract is the law.
ghost use Rattle.lms_tree.specs.Signer.{Signing, public_of};
ghost use Rattle.lms_tree.specs.Valid.{Key, Valid};
ghost use Rattle.op_types.specs.declared.op.Op.{Op};
ghost use Rattle.op_types.specs.Spelling.{op_signed};
ghost use Rattle.signed_ops.specs.Signed.{is_author_signed, IsAuthorSigned, with_sig};
ghost use Rattle.std.specs.Prelude.{◌≡◌, ◌↔◌, ℕ, List, true};

/// The test of an author's signature decides the relation, and what an author signs doesn't hold the
/// signature itself.
pub fn signatures()
    ensures decides { (keys : List (ℕ × Key)) (op : Op) → (is_author_signed keys op ≡ true) ↔ IsAuthorSigned keys op }
    ensures unsigned { (op : Op) (sig : List ℕ) → op_signed (with_sig op sig) ≡ op_signed op }
{}
