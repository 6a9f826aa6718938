//! Tests of users' clients over the server. They stand apart, so that the sources aren't proved again for them.
#![tactic(auto)]

#[cfg(test)]
mod scene;
#[cfg(test)]
mod steps;
#[cfg(test)]
mod tests;
#[cfg(test)]
mod wall;
