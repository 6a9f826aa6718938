//! The forms of the program: its script, which is read of JSON or generated from a number, what its
//! commands came to, and the report and the summary of a run.
#![tactic(auto)]

mod asked;
mod counts;
mod ends;
mod last_lines;
mod numbered;
mod outcome;
mod put;
mod refused;
mod run_report;
mod run_summary;
mod shown;

pub use counts::{Count, status_of};
pub use numbered::generated;
pub use outcome::{
    AuditLine, CommandEnd, KeysEnd, Outcome, OutcomeList, Outcomes, Shown, ShownKind, ShownList,
    WallEnd, WallEnds,
};
pub use refused::refusal_line;
pub use run_report::report;
pub use run_summary::summary;
pub use script_read::{
    Command, Commands, DigestName, Listed, Phase, Phases, Script, ScriptRefusal, ScriptSession,
    ScriptUser, ScriptUsers, ScriptWall, ScriptWalls, TamperLine, TamperLines, UserNumbers,
    limits_law, read_script,
};
