//! The laws of clients. Each function has an empty body, and its contract is the law.
ghost use Rattle.std.specs.Prelude.{◌≡◌, Err, List, Ok, Some, ℕ};
ghost use Rattle.check_rules.specs.Verdict.{keys_judged};
ghost use Rattle.fr_bytes.specs.Bytes.{Text};
ghost use Rattle.fr_digest.specs.Digest.{Digest};
ghost use Rattle.msg_form.specs.declared.verdict.Verdict.{Verdict};
ghost use Rattle.key_graph.specs.declared.change.Setting.{Setting};
ghost use Rattle.key_graph.specs.Streams.{Use};
ghost use Rattle.op_types.specs.declared.op.Op.{Op};
ghost use Rattle.world_book.specs.declared.world.World.{World};
ghost use Rattle.lms_tree.specs.Valid.{Key};
ghost use Rattle.world_book.specs.declared.book.UserBook.{UserBook};
ghost use Rattle.world_book.specs.declared.world.WallNote.{WallNote};
ghost use Rattle.world_book.specs.Kept.{Kept, KeptBook};
ghost use Rattle.world_book.specs.Records.{Signs, note_of};
ghost use Rattle.client_core.specs.Uses.{IsMade, OpUses};
ghost use Rattle.client_core.specs.declared.news.News.{News};
ghost use Rattle.client_core.specs.declared.sent.Sent.{Sent};
ghost use Rattle.client_core.specs.Asking.{Command};
ghost use Rattle.client_core.specs.Clients.{Asks, ClientView, Hears, Rejects, Relearns, side_sent};
ghost use Rattle.client_core.specs.Keeping.{StaysAs};
ghost use Rattle.client_core.specs.Sides.{SideView, side_of};
ghost use Rattle.client_core.specs.Taking.{relearnt, take};

/// What a client asks of a wall, hears and learns of it leaves its sides of other walls as they were, and what everybody
/// knows of the walls, the users, and whose book it is.
pub fn walls()
    ensures asked { (before after : ClientView) (wall : ℕ) (command : Command) (sent : Sent)
        → Asks before wall command sent after → StaysAs before wall after }
    ensures heard { (d : Digest) (before after : ClientView) (sent : Sent) (bytes : Text) (news : News)
        → Hears d before sent bytes news after → StaysAs before sent.wall after }
    ensures learnt { (d : Digest) (before after : ClientView) (wall : ℕ) (bytes : Text)
        → Relearns d before wall bytes after → StaysAs before wall after }
{}

/// What a call leaves of its wall's side: an operation that is sent uses a number, and changes that are learnt come in the
/// place of all that was held.
pub fn sides()
    ensures asked { (before after : ClientView) (wall : ℕ) (command : Command) (sent : Sent)
        → Asks before wall command sent after → (s t : SideView) → side_of wall before.sides ≡ Some s
        → side_of wall after.sides ≡ Some t → t ≡ side_sent s sent.signed }
    ensures learnt { (d : Digest) (before after : ClientView) (wall : ℕ) (bytes : Text)
        → Relearns d before wall bytes after → (s t : SideView) → side_of wall before.sides ≡ Some s
        → side_of wall after.sides ≡ Some t
        → (changes : List Op) × (keys_judged d s.known bytes ≡ Ok changes) × (t ≡ relearnt s changes) }
{}

/// A client that hears a reply makes of it, and is left with, what the plain client is.
pub fn replies()
    ensures heard { (d : Digest) (before after : ClientView) (sent : Sent) (bytes : Text) (news : News)
        → Hears d before sent bytes news after → (s t : SideView) → side_of sent.wall before.sides ≡ Some s
        → side_of sent.wall after.sides ≡ Some t → take d s sent.asked bytes ≡ Ok (news, t) }
    ensures rejected { (d : Digest) (c : ClientView) (sent : Sent) (bytes : Text) (verdict : Verdict)
        → Rejects d c sent bytes verdict → (s : SideView) → side_of sent.wall c.sides ≡ Some s
        → take d s sent.asked bytes ≡ Err verdict }
{}

/// A book that is kept with the notes of a client's walls is kept with all walls' notes, whatever their order.
pub fn notes()
    ensures { (d : Digest) (notes others : List WallNote) (keys : List (ℕ × Key)) (book : UserBook)
        → ((wall : ℕ) (n : WallNote) → note_of notes wall ≡ Some n → note_of others wall ≡ Some n)
        → KeptBook d notes keys book → KeptBook d others keys book }
{}

/// No two operations on one wall that honest users signed use one stream of one key, where they are made by the rules, as
/// a client's book has them. Within a change `key_graph` says it of its plan's wraps.
pub fn streams()
    ensures { (d : Digest) (w : World) → Kept d w → (setting : Setting) (of user other : ℕ) (x y : Op) (u : Use)
        → Signs w user x → Signs w other y → x.wall ≡ y.wall → IsMade setting of x.author x.seq x.kind
        → IsMade setting of y.author y.seq y.kind → OpUses setting x u → OpUses setting y u → x ≡ y }
{}
