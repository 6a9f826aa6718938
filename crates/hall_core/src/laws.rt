//! The laws of plain walls, of the calls on them and of what stands for their leaves. Each function has an empty body,
//! and its contract is the law.
ghost use Rattle.fr_bytes.specs.History.{Begins, own};
ghost use Rattle.hall_core.specs.Calls.{EachBegins, LegalFrom, Turn, caller_of, play, play_from, turns, turns_from};
ghost use Rattle.hall_core.specs.declared.ask.Answer.{Answer};
ghost use Rattle.hall_core.specs.declared.ask.Ask.{Ask};
ghost use Rattle.hall_core.specs.declared.ask.Called.{Called};
ghost use Rattle.hall_core.specs.declared.facts.WallFacts.{WallFacts};
ghost use Rattle.hall_core.specs.Honest.{IsHonest};
ghost use Rattle.hall_core.specs.PlainWall.{Gives, left_behind};
ghost use Rattle.hall_core.specs.Standing.{IsKept};
ghost use Rattle.op_types.specs.declared.op.Leaf.{Leaf};
ghost use Rattle.op_types.specs.Spelling.{IsLeaf};
ghost use Rattle.std.specs.List.{AllByRecursion};
ghost use Rattle.std.specs.Prelude.{◌≡◌, ◌↔◌, ◌++◌, ◌∷◌, [], ℕ, List};

use crate::Hall;
use fr_digest::Digester;

/// A hall's entries are legal, and they leave its leaves.
pub fn kept<D: Digester>(hall: &Hall<D>)
    ensures { IsKept D.digest_of hall.now.facts hall.now.leaves hall.now.entries }
{
    let _entry = hall.entry(0);
}

/// Two stretches of calls, one after the other: the second plays on from the list that the first leaves.
pub fn plays<D: Digester>()
    ensures leaves { (facts : WallFacts) (leaves : List Leaf) (front more : List Called)
        → play_from D.digest_of facts leaves (front ++ more)
        ≡ play_from D.digest_of facts (play_from D.digest_of facts leaves front) more }
    ensures turns { (facts : WallFacts) (caller : ℕ) (leaves : List Leaf) (front more : List Called)
        → turns_from D.digest_of facts caller leaves (front ++ more)
        ≡ turns_from D.digest_of facts caller leaves front
        ++ turns_from D.digest_of facts caller (play_from D.digest_of facts leaves front) more }
    ensures legal { (facts : WallFacts) (leaves : List Leaf) (front more : List Called)
        → LegalFrom D.digest_of facts leaves (front ++ more)
        ↔ LegalFrom D.digest_of facts leaves front × LegalFrom D.digest_of facts
        (play_from D.digest_of facts leaves front) more }
{}

/// A caller's next call gives one turn more, whatever others called before it: the list of that turn is the one that
/// all the calls leave.
pub fn turns<D: Digester>()
    ensures { (facts : WallFacts) (caller : ℕ) (front others : List Called) (call : Called)
        → own caller_of caller others ≡ [] → call.caller ≡ caller
        → turns D.digest_of facts caller (front ++ others ++ call ∷ [])
        ≡ turns D.digest_of facts caller front ++ (record {
          call = call;
          left = play D.digest_of facts
              (front ++ others ++ call ∷ []);
        } ∷ []) }
{}

/// A wall only grows: a call, whatever its answer, and so any calls, leave a list that begins with the list before. The
/// list of each turn of a caller begins with that of the turn before, and the list at the end with that of each.
pub fn growth<D: Digester>()
    ensures answer { (facts : WallFacts) (leaves : List Leaf) (ask : Ask) (answer : Answer)
        → Begins leaves (left_behind D.digest_of facts leaves ask answer) }
    ensures calls { (facts : WallFacts) (leaves : List Leaf) (calls : List Called)
        → Begins leaves (play_from D.digest_of facts leaves calls) }
    ensures front { (facts : WallFacts) (front more : List Called)
        → Begins (play D.digest_of facts front) (play D.digest_of facts (front ++ more)) }
    ensures turns { (facts : WallFacts) (caller : ℕ) (leaves : List Leaf) (calls : List Called)
        → EachBegins leaves (turns_from D.digest_of facts caller leaves calls) }
    ensures end { (facts : WallFacts) (caller : ℕ) (leaves : List Leaf) (calls : List Called)
        → AllByRecursion (λ (turn : Turn). Begins turn.left (play_from D.digest_of facts leaves calls))
        (turns_from D.digest_of facts caller leaves calls) }
{}

/// A wall stays honest: from honest leaves an answer that is the wall's leaves honest ones, where they have spellings,
/// and so do the legal entries that a hall keeps.
pub fn honesty<D: Digester>()
    ensures empty { (facts : WallFacts) → IsHonest D.digest_of facts [] }
    ensures call { (facts : WallFacts) (leaves : List Leaf) (ask : Ask) (answer : Answer)
        → Gives D.digest_of facts leaves ask answer → IsHonest D.digest_of facts leaves
        → AllByRecursion IsLeaf (left_behind D.digest_of facts leaves ask answer)
        → IsHonest D.digest_of facts (left_behind D.digest_of facts leaves ask answer) }
    ensures play { (facts : WallFacts) (leaves : List Leaf) (calls : List Called)
        → IsKept D.digest_of facts leaves calls
        → IsHonest D.digest_of facts leaves }
{}
