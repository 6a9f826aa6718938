//! What a run comes to when its clients and its halls end: the world that is audited, the line of its audit, and the
//! walls at the end.
#![tactic(auto)]

mod auditing;
mod walls;
mod worlds;

pub use auditing::audit_line;
pub use walls::wall_ends;
pub use worlds::world_of;
