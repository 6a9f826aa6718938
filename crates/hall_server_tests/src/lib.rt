//! Tests of `hall_replies`, with the check of a client, and of `hall_server`. They stand apart, so that the sources
//! aren't proved again for them.
#![tactic(auto)]

#[cfg(test)]
mod gates;
#[cfg(test)]
mod replies;
#[cfg(test)]
mod servers;
#[cfg(test)]
mod turns;
#[cfg(test)]
mod walls;
