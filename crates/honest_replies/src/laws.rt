//! The laws of honest replies. Each function has an empty body, and its contract is the law.
ghost use Rattle.std.specs.List.{AllByRecursion};
ghost use Rattle.tree_model.specs.History.{root};
ghost use Rattle.wall_law.specs.State.{state_of};
ghost use Rattle.std.specs.Prelude.{◌≡◌, ◌<◌, ◌≤◌, ◌++◌, ◌∷◌, [], ℕ, Bool, List, Ok, drop, length, take, true};
ghost use Rattle.fr_digest.specs.Digest.{Digest};
ghost use Rattle.op_types.specs.declared.op.Leaf.{Leaf};
ghost use Rattle.op_types.specs.declared.view.View.{View};
ghost use Rattle.hist_proof.specs.Pruned.{Tree};
ghost use Rattle.pruned_list.specs.PrunedList.{PrunedList};
ghost use Rattle.check_rules.specs.declared.known.Known.{Known};
ghost use Rattle.check_rules.specs.Accepted.{Accepted};
ghost use Rattle.check_rules.specs.Shown.{changes_of, leaves_from};
ghost use Rattle.check_rules.specs.Verdict.{answered_or, is_answered, judged, keys_judged, nothing_new, refusal, taken};
ghost use Rattle.check_rules.specs.declared.asked.Asked.{Asked};
ghost use Rattle.check_rules.specs.declared.asked.Asked.TheVariants.{Append};
ghost use Rattle.fr_bytes.specs.Bytes.{Text};
ghost use Rattle.msg_form.specs.Messages.{SpellsReply};
ghost use Rattle.msg_form.specs.declared.message.Reply.TheVariants.{Refused};
ghost use Rattle.op_types.specs.Spelling.{IsLeaf, op_text};
ghost use Rattle.honest_replies.specs.HonestReply.{KeysReply, NewsReply, SpellsBare};
ghost use Rattle.honest_replies.specs.HonestNews.{Begins, Follows, IsHonest, IsViewOf, ShowsNews, texts_of};

/// What an honest server shows to a client that follows its wall is accepted, and what is shown are the wall's leaves.
pub fn news()
    ensures accepted { (d : Digest) (known : Known) (L : List Leaf) (whole : Bool) (view : View) (from : ℕ)
        (tree : Tree) (lists : List PrunedList) → IsHonest d known L → Follows d known L → IsViewOf d known.wall known.server L view
        → known.size < length L → Begins known.size known.f L whole from → ShowsNews d known.owner known.size L from tree lists
        → Accepted d known view from tree lists }
    ensures leaves { (d : Digest) (known : Known) (L : List Leaf) (from : ℕ) (tree : Tree) (lists : List PrunedList)
        → from ≤ length L → IsHonest d known L → ShowsNews d known.owner known.size L from tree lists
        → leaves_from tree (length L) from ≡ drop from L }
{}

/// What a client that follows an honest wall makes of the bytes that an honest server replies with. Where nothing is new
/// to it, it answers that a look has told nothing new, and that an operation is missing. Where something is new, it takes
/// the wall's leaves from the first shown position on, unless they don't hold the operation that it sent; and the
/// operation of the last leaf is among them. A refusal of an operation is taken as that.
pub fn replies()
    ensures bare { (d : Digest) (known : Known) (asked : Asked) (L : List Leaf) (view : View) (bytes : Text)
        → Follows d known L → IsViewOf d known.wall known.server L view → known.size ≡ length L
        → SpellsBare view bytes → judged d known asked bytes ≡ nothing_new asked (length L) }
    ensures news { (d : Digest) (known : Known) (asked : Asked) (L : List Leaf) (view : View) (bytes : Text)
        (whole : Bool) → IsHonest d known L → Follows d known L → IsViewOf d known.wall known.server L view
        → known.size < length L → (n : NewsReply d known.owner known.size known.f L whole view bytes)
        → judged d known asked bytes
        ≡ answered_or asked (drop n.from L) (Ok (taken view n.from n.tree (drop n.from L) n.lists)) }
    ensures last { (leaves : List Leaf) (l : Leaf) (from : ℕ) → from ≤ length leaves
        → is_answered (Append (op_text l.op)) (drop from (leaves ++ l ∷ [])) ≡ true }
    ensures refusal { (d : Digest) (known : Known) (op : Text) (cause number : ℕ) (bytes : Text)
        → SpellsReply (Refused known.wall cause number) bytes
        → judged d known (Append op) bytes ≡ Ok (refusal cause number) }
{}

/// What a client makes of a reply with the changes of the wall's access list, where it has accepted the wall's first
/// leaves and knows how many changes there are among them: it takes them, in order. The wall's epoch counts them.
pub fn changes()
    ensures taken { (d : Digest) (known : Known) (L : List Leaf) (bytes : Text) → AllByRecursion IsLeaf L
        → known.size ≤ length L → known.root ≡ root d (texts_of L) known.size
        → known.epoch ≡ length (changes_of (take known.size L))
        → KeysReply d known.wall L known.size bytes
        → keys_judged d known bytes ≡ Ok (changes_of (take known.size L)) }
    ensures epoch { (owner : ℕ) (L : List Leaf) → (state_of owner L).epoch ≡ length (changes_of L) }
{}
