//! The laws of key trees and books. Each function has an empty body, and its contract is the law.

ghost use Rattle.fr_bytes.specs.Bytes.{Text};
ghost use Rattle.key_graph.specs.KeyBook.{book_root};
ghost use Rattle.key_graph.specs.KeyTree.{Plan, after, ancestors, followed_by, root_generation, slot_node, tree_root};
ghost use Rattle.key_graph.specs.Learning.{HasLeaf, book_after};
ghost use Rattle.key_graph.specs.Reach.{Among, Event, HasSlotBelow, IsMember, IsRun, Reach, changes_at, follow, followed, inner, plans, tree_of};
ghost use Rattle.key_graph.specs.declared.change.Change.{Change};
ghost use Rattle.key_graph.specs.Streams.{AreFit, Use, WrapUses};
ghost use Rattle.key_graph.specs.declared.change.Setting.{Setting};
ghost use Rattle.std.specs.List.{list_any};
ghost use Rattle.std.specs.Prelude.{◌≡◌, ◌<◌, ◌≤◌, ◌^◌, ◌↔◌, ◌∷◌, ℕ, List, Some, nat_eq, true};

/// Who reaches which key. In every key run the key of a node above a plan's slot, in the plan's generation, is among
/// those that a user reaches exactly where the user has a slot below the node after that plan. All plans count, also
/// those that were never followed.
pub fn reach()
    ensures { (setting : Setting) (es : List Event) (p : Plan) (x u : ℕ) → IsRun setting es → Among p (plans es) → list_any (nat_eq x) (ancestors setting.depth (slot_node setting.depth p.change.slot)) ≡ true → Reach setting (plans es) u (inner x p.change.generation) ↔ HasSlotBelow setting.depth (after p) x u }
{}

/// Who reaches the root keys: a user reaches that of an epoch exactly where it is a member after the epoch's changes.
/// So a removed user reaches none of a later epoch, and a new one none of an earlier epoch.
pub fn roots()
    ensures { (setting : Setting) (es : List Event) (e g u : ℕ) → IsRun setting es → 1 ≤ setting.depth → root_generation (tree_of setting es).epochs e ≡ Some g → Reach setting (plans es) u (inner 1 g) ↔ IsMember setting.depth (changes_at e (followed es)) u }
{}

/// A change that is followed in a key run fits, and the tree is then the run's.
pub fn runs()
    ensures { (setting : Setting) (c : Change) (es : List Event) → IsRun setting (follow c ∷ es) → followed_by (tree_of setting es) c ≡ (true, tree_of setting (follow c ∷ es)) }
{}

/// What a book holds. One that learnt the followed changes of a key run, with the leaf key that the user was admitted
/// with, gives the root key of an epoch exactly where the user is a member after the epoch's changes, and then the
/// tree's.
pub fn books()
    ensures { (setting : Setting) (es : List Event) (role : Change → ℕ) (u : ℕ) (leaf : Text) (e : ℕ) (key : Text) → IsRun setting es → 1 ≤ setting.depth → HasLeaf u leaf (followed es) → (book_root (book_after setting role u leaf (followed es)) e ≡ Some key) ↔ IsMember setting.depth (changes_at e (followed es)) u × (tree_root (tree_of setting es) e ≡ Some key) }
{}

/// Which streams of which keys are used. No two wraps of a plan over changes that fitted use the same stream of one key,
/// none uses a root's key, and plans that use the same stream have one generation.
pub fn streams()
    ensures once { (setting : Setting) (p : Plan) (i j : ℕ) (u : Use) → AreFit setting.depth (after p)
        → p.change.slot < 2 ^ setting.depth → WrapUses setting p i u → WrapUses setting p j u → i ≡ j }
    ensures root { (setting : Setting) (p : Plan) (i g : ℕ) (u : Use) → WrapUses setting p i u → u.key ≡ inner 1 g → ⊥ }
    ensures generations { (setting : Setting) (p q : Plan) (i j : ℕ) (u : Use) → p.change.generation < 2 ^ 32
        → q.change.generation < 2 ^ 32 → WrapUses setting p i u → WrapUses setting q j u
        → p.change.generation ≡ q.change.generation }
{}
