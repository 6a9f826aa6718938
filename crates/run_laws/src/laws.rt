//! The laws of a run of which nothing was tampered with. Each function has an empty body, and its contract is the law.
ghost use Rattle.std.specs.Prelude.{ℕ, List};
ghost use Rattle.fr_digest.specs.Digest.{Digest};
ghost use Rattle.hall_core.specs.declared.ask.Called.{Called};
ghost use Rattle.fr_edges.specs.Wire.{WireView};
ghost use Rattle.hall_core.specs.declared.facts.WallFacts.{WallFacts};
ghost use Rattle.hall_core.specs.Standing as standing;
ghost use Rattle.op_types.specs.declared.op.Leaf.{Leaf};
ghost use Rattle.session_laws.specs.Doing.{Heard, PlainClient};
ghost use Rattle.run_laws.specs.Straight.{AreStraight, IsUntouched};
ghost use Rattle.run_laws.specs.Untampered.{EndsWell, IsUntampered};
ghost use Rattle.run_laws.specs.Whole.{Whole};
ghost use Rattle.script_form.specs.declared.outcome.Outcomes.{Outcomes};
ghost use Rattle.script_read.specs.declared.script.Script.{Script};
ghost use Rattle.script_read.specs.Limits.{IsScript};
ghost use Rattle.world_book.specs.declared.world.World.{World};

/// A client that follows an honest wall, whose exchanges with it are its user's turns and over straight wires: each of
/// its commands ends by its turns, none is rejected or lost, and it follows the wall to the end, with records that show
/// it.
pub fn users()
    ensures { (d : Digest) (facts : WallFacts) (user : ℕ) (leaves : List Leaf) (calls : List Called) (c : PlainClient)
        (heards : List Heard) → IsUntampered d facts user leaves calls c heards
        → EndsWell d facts user leaves calls c heards }
{}

/// The run of a script over straight wires: no command is rejected or lost; each ends by its user's entries in the
/// wall's hall, declines by the hall's access list, reads by it the posts that it shows, and sees at least as much as
/// those of earlier phases; each record that has a history stands for the first leaves of its hall; and the audit finds
/// all sound.
pub fn runs()
    ensures { (d : Digest) (script : Script) (wires wires' : List WireView) (world : World) (halls : List standing.Hall)
        (outcomes : Outcomes) (run : Whole d script wires wires' world halls outcomes) → IsScript script
        → AreStraight wires → IsUntouched d script wires wires' world halls outcomes run }
{}
