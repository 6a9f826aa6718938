//! The laws that join a wall as its server keeps it with the wall as a client knows it. The function has an empty body,
//! and its contract is the law.
ghost use Rattle.check_rules.specs.declared.known.Known.{Known};
ghost use Rattle.fr_digest.specs.Digest.{Digest};
ghost use Rattle.hall_core.specs.declared.facts.WallFacts.{WallFacts};
ghost use Rattle.hall_core.specs.Honest as kept;
ghost use Rattle.hall_core.specs.Standing as standing;
ghost use Rattle.hall_replies.specs.Knowing.{Knows};
ghost use Rattle.honest_replies.specs.HonestNews as told;
ghost use Rattle.op_types.specs.declared.op.Leaf.{Leaf};
ghost use Rattle.op_types.specs.declared.view.View.{View};
ghost use Rattle.std.specs.Prelude.{List};

/// A wall that its server keeps honest is an honest wall to a client that knows it, and a view of its leaves is one of
/// an honest server. So what the laws of honest replies say of such a client holds for the replies that are made of
/// the wall's snapshots.
pub fn honest_walls()
    ensures wall { (d : Digest) (facts : WallFacts) (known : Known) (L : List Leaf) → Knows facts known
        → kept.IsHonest d facts L → told.IsHonest d known L }
    ensures view { (d : Digest) (facts : WallFacts) (L : List Leaf) (view : View) → standing.IsViewOf d facts L view
        → told.IsViewOf d facts.wall facts.server L view }
{}
