//! Tests of the sessions of a phase, over clients, a server, wires and threads. They stand apart, so that the sources
//! aren't proved again for them.
#![tactic(auto)]

#[cfg(test)]
mod held;
#[cfg(test)]
mod lanes;
#[cfg(test)]
mod outcomes;
#[cfg(test)]
mod tests;
#[cfg(test)]
mod todo;
#[cfg(test)]
mod walls;
