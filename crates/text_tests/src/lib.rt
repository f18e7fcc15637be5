//! Tests of policies, topologies and documents: what no clause says, that calls succeed where memory is there.
//!
//! Layer: tests. The root of the crate, which no code calls.
#![tactic(auto)]

#[cfg(test)]
mod copies;
#[cfg(test)]
mod displays;
#[cfg(test)]
mod documents;
#[cfg(test)]
mod policies;
#[cfg(test)]
mod results;
#[cfg(test)]
mod topologies;
