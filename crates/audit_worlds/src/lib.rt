//! Tests of the audit of worlds that clients left which used one or two servers of a wall.
#![tactic(auto)]

#[cfg(test)]
mod clashes;
#[cfg(test)]
mod halls;
#[cfg(test)]
mod people;
#[cfg(test)]
mod scene;
#[cfg(test)]
mod steps;
#[cfg(test)]
mod tests;
#[cfg(test)]
mod wall;
