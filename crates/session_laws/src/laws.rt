//! The laws of lanes and of runs. Each function has an empty body, and its contract is the law.
ghost use Rattle.std.specs.Prelude.{◌≡◌, ◌++◌, ◌∷◌, [], ℕ, List};
ghost use Rattle.std.specs.List.{AllByRecursion};
ghost use Rattle.fr_digest.specs.Digest.{Digest};
ghost use Rattle.hall_core.specs.declared.ask.Called.{Called};
ghost use Rattle.hall_core.specs.Calls.{caller_of};
ghost use Rattle.fr_bytes.specs.History.{own};
ghost use Rattle.session_laws.specs.Doing.{Task};
ghost use Rattle.session_laws.specs.Histories.{ClosedFronts, IsUser, PhaseFronts, Together};
ghost use Rattle.session_laws.specs.Lanes.{LaneRun, LaneView, TaskRun};
ghost use Rattle.session_laws.specs.Runs.{Enters, IsOf, PhaseRun, RunView, with_lane};

/// A lane that did nothing did no task, one that did a task did that one, and one that did some tasks and then others
/// did all of these.
pub fn lanes()
    ensures nothing { (d : Digest) (user : ℕ) (v : LaneView) → LaneRun d user v v [] }
    ensures one { (d : Digest) (user : ℕ) (before now : LaneView) (task : Task) → TaskRun d user before now task
        → LaneRun d user before now (task ∷ []) }
    ensures more { (d : Digest) (user : ℕ) (a b c : LaneView) (ps qs : List Task) → LaneRun d user a b ps
        → LaneRun d user b c qs → LaneRun d user a c (ps ++ qs) }
{}

/// So it is with runs. A lane that begins where a run stands, and whose tasks are those of its user's session, is a
/// stretch of the run that leaves the other users and the other wires as they were: so lanes that ran at once are one
/// stretch after the other, in any order.
pub fn runs()
    ensures nothing { (d : Digest) (run : RunView) → PhaseRun d run run [] }
    ensures more { (d : Digest) (a b c : RunView) (ps qs : List Task) → PhaseRun d a b ps → PhaseRun d b c qs
        → PhaseRun d a c (ps ++ qs) }
    ensures lane { (d : Digest) (run : RunView) (user session : ℕ) (before now : LaneView) (tasks : List Task)
        → Enters run user session before → AllByRecursion (IsOf user session) tasks
        → LaneRun d user before now tasks → PhaseRun d run (with_lane run user session now) tasks }
{}

/// Where users have seen a history with all of their own entries, and in a phase each saw more, with new entries of its
/// own, and then each saw what all had seen and no more of its own: then they have seen a longer history, with one more
/// stretch, which has these new entries. And the entries of the gate that is closed then are that history.
pub fn histories()
    ensures stretch { (u : ℕ) (users : List ℕ) (before lanes met news : ℕ → List Called) (history : List Called)
        → Together (u ∷ users) before history → PhaseFronts (u ∷ users) before lanes met news
        → (stretch : List Called) × Together (u ∷ users) met (history ++ stretch)
        × ((user : ℕ) → IsUser (u ∷ users) user → own caller_of user stretch ≡ news user) }
    ensures end { (u : ℕ) (users : List ℕ) (front : ℕ → List Called) (history entries : List Called)
        → Together (u ∷ users) front history → ClosedFronts (u ∷ users) front entries → entries ≡ history }
{}
