//! The laws of what users know of a server's walls. Each function has an empty body, and its contract is the law.
ghost use Rattle.fr_digest.specs.Digest.{Digest};
ghost use Rattle.hall_core.specs.Calls.{play};
ghost use Rattle.hall_core.specs.declared.ask.Called.{Called};
ghost use Rattle.hall_core.specs.declared.facts.WallFacts.{WallFacts};
ghost use Rattle.hall_core.specs.Honest.{IsHonest};
ghost use Rattle.hall_server.specs.Seating.{IsPlayed};
ghost use Rattle.hall_server.specs.Sights.{Sight, sight_in, walls_in};
ghost use Rattle.std.specs.List.{Contains};
ghost use Rattle.std.specs.Prelude.{◌≡◌, ℕ, List};

/// The leaves that a turn left are an honest wall's.
pub fn honest()
    ensures { (d : Digest) (facts : WallFacts) (calls : List Called) → IsPlayed d facts calls
        → IsHonest d facts (play d facts calls) }
{}

/// What is known of a wall that is listed is of that wall.
pub fn walls()
    ensures { (sights : List Sight) (wall : ℕ) → Contains (walls_in sights) wall
        → (sight_in sights wall).facts.wall ≡ wall }
{}
