//! Scripts of the program: what they hold, and the reading of their JSON, which gives the script or the
//! first refusal.
#![tactic(auto)]

mod commands;
mod elements;
mod known;
mod limits;
mod object;
mod phases;
mod printable;
mod refusal;
mod script;
mod tamper;
mod top;
mod users;
mod walls;
mod writes;

pub use limits::limits_law;
pub use printable::is_printable_text;
pub use refusal::{Listed, ScriptRefusal};
pub use script::{
    Command, Commands, DigestName, Phase, Phases, Script, ScriptSession, ScriptUser, ScriptUsers,
    ScriptWall, ScriptWalls, TamperLine, TamperLines, UserNumbers,
};
pub use top::read_script;
