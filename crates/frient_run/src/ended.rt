use fr_digest::{Sha, Short};
use hall_core::Hall;
use script_form::Outcomes;
use world_book::World;

/// The halls of a run's walls, in rising order of their numbers, under the script's digest.
#[derive(Drop)]
pub enum Halls {
    Sha(Vec<Hall<Sha>>),
    Short(Vec<Hall<Short>>),
}

/// How a call ended.
///
/// | status | comes | written |
/// |---|---|---|
/// | 0 | otherwise | the report |
/// | 1 | where a command or its exchange for keys was rejected or lost, and the audit found nothing | the report |
/// | 2 | where words or script are refused | one line |
/// | 3 | exactly where a read or a write failed | a part of the front of what would be written |
/// | 4 | where the audit found a collision, and no forgery | the report with both strings |
/// | 5 | where the audit found a forgery | the report with the user, the wall and the operation |
/// | 6 | for want of memory | nothing |
///
/// The run of a generated script is told by a summary in place of a report. World, halls and outcomes are those of the
/// whole run where it was made, and else there are none: no user and no wall, no halls under `Sha`, and no commands,
/// of which the audit says `Sound` with 0 and 0.
#[derive(Drop)]
pub struct Ended {
    pub status: u8,
    pub world: World,
    pub halls: Halls,
    pub outcomes: Outcomes,
}
