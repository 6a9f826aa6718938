ghost use Rattle.std.specs.Prelude.{◌≡◌, Some, true, false};
ghost use Rattle.std.specs.Option.{option_map};
ghost use Rattle.world_book.specs.declared.took.Signed.{Signed};
ghost use Rattle.world_book.specs.Records.{IsIn, Signs, book_of, is_honest};
ghost use Rattle.audit_run.specs.Unsigned.{IsOwned, IsSearched, leaves_of, shown_leaves};

use crate::same::is_same_op;
use op_types::{Leaf, Op};
use world_book::{Signed, Took, UserBook, World};

/// The user's book.
pub(crate) fn find_book(world: &World, user: u32) -> Option<&UserBook>
    ensures { option_map (λ b. b.now) result ≡ book_of world.now user }
{
    world.users.as_slice().iter().find(|book| book.user == user)
}

/// Whether the user is listed and no rogue.
pub(crate) fn is_honest(world: &World, user: u32) -> bool
    ensures { result ≡ is_honest world.now user }
{
    match find_book(world, user) {
        None => false,
        Some(book) => !book.rogue,
    }
}

/// Whether the operation is one of these.
fn is_among(signed: &[Signed], op: &Op) -> bool
    ensures one { result ≡ true → (s : Signed) × IsIn signed.now s × (s.op ≡ op.now) }
    ensures none { result ≡ false → (s : Signed) → IsIn signed.now s → s.op ≡ op.now → ⊥ }
{
    for one in signed {
        if is_same_op(&one.op, op) {
            return true;
        }
    }
    false
}

/// Whether the leaf's author is honest and never signed its operation.
fn is_unsigned(world: &World, leaf: &Leaf) -> bool
    ensures unsigned { result ≡ true → (is_honest world.now leaf.now.op.author ≡ true)
        × (Signs world.now leaf.now.op.author leaf.now.op → ⊥) }
    ensures owned { result ≡ false → IsOwned world.now leaf.now }
{
    match find_book(world, leaf.op.author) {
        None => false,
        Some(book) => !book.rogue && !is_among(book.signed.as_slice(), &leaf.op),
    }
}

/// The first of these leaves whose author is honest and never signed its operation.
fn unsigned_leaf<'a>(world: &World, leaves: &'a [Leaf]) -> Option<&'a Leaf>
    ensures { IsSearched world.now leaves.now (option_map (λ leaf. leaf.now) result) }
{
    for leaf in leaves {
        if is_unsigned(world, leaf) {
            return Some(leaf);
        }
    }
    None
}

/// The first such leaf that these records show.
fn unsigned_among<'a>(world: &World, records: &'a [Took]) -> Option<&'a Leaf>
    ensures { IsSearched world.now (leaves_of records.now) (option_map (λ leaf. leaf.now) result) }
{
    for took in records {
        let leaf = unsigned_leaf(world, took.leaves.as_slice());
        if leaf.is_some() {
            return leaf;
        }
    }
    None
}

/// The first leaf that is shown, over the users rising, each one's records in order and each record's positions, whose
/// author is honest and never signed its operation. Takes no memory.
pub fn first_unsigned(world: &World) -> Option<&Leaf>
    ensures { IsSearched world.now (shown_leaves world.now) (option_map (λ leaf. leaf.now) result) }
{
    for book in world.users.as_slice() {
        let leaf = unsigned_among(world, book.took.as_slice());
        if leaf.is_some() {
            return leaf;
        }
    }
    None
}
