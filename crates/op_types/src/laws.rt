//! The laws of the spellings. Each function has an empty body, and its contract is the law.
ghost use Rattle.fr_bytes.specs.Bytes.{IsBytes};
ghost use Rattle.std.specs.Prelude.{◌≡◌, ℕ, List, map};
ghost use Rattle.std.specs.List.{AllByRecursion};
ghost use Rattle.op_types.specs.declared.op.Leaf.{Leaf};
ghost use Rattle.op_types.specs.declared.op.Op.{Op};
ghost use Rattle.op_types.specs.Spelling.{IsLeaf, SpellsOp, SpellsLeaf, leaf_text};

/// No bytes spell two operations, and no operation has two spellings.
pub fn one_spelling_of_ops()
    ensures one_value { (x y : Op) (bytes : List ℕ) → SpellsOp x bytes → SpellsOp y bytes → x ≡ y }
    ensures one_text { (x : Op) (a b : List ℕ) → SpellsOp x a → SpellsOp x b → a ≡ b }
{}

/// No bytes spell two leaves, no leaf has two spellings, and lists of leaves of equal texts are equal.
pub fn one_spelling_of_leaves()
    ensures one_value { (x y : Leaf) (bytes : List ℕ) → SpellsLeaf x bytes → SpellsLeaf y bytes → x ≡ y }
    ensures one_text { (x : Leaf) (a b : List ℕ) → SpellsLeaf x a → SpellsLeaf x b → a ≡ b }
    ensures lists { (xs ys : List Leaf) → AllByRecursion IsLeaf xs → AllByRecursion IsLeaf ys
        → map leaf_text xs ≡ map leaf_text ys → xs ≡ ys }
{}

/// What a slice of bytes holds are bytes.
pub fn slices_of_bytes(bytes: &[u8])
    ensures { IsBytes bytes.now }
{}
