ghost use Rattle.std.specs.Prelude.{◌≡◌, Ok};
ghost use Rattle.script_read.specs.Reading.{script_at};
ghost use Rattle.script_read.specs.Limits.{IsScript};

use crate::script::Script;

/// The law of a script that bytes spell: its users, walls, phases and tamper lines are in their ranges and limits, no
/// two users, no two walls and no two sessions of a phase have one number, each number of an owner, a session, a command
/// and a tamper line is listed, and no user writes more than its key can sign.
pub fn limits_law(bytes: &[u8], script: &Script)
    requires { script_at bytes.now ≡ Ok script.now }
    ensures { IsScript script.now }
{}
