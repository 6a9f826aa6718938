/// Where a command stands in a script. Each number counts from 1.
#[derive(Clone, Copy, Debug, PartialEq, Eq)]
pub struct Place {
    /// The phase.
    pub phase: u32,
    /// The session in the phase.
    pub session: u32,
    /// The command in the session.
    pub command: u32,
}
