//! Tests of diagrams: what no clause says, that calls succeed where memory is there, and generic calls at a type.
//!
//! Layer: tests. The root of the crate, which no code calls.
#![tactic(auto)]

#[cfg(test)]
mod made;
#[cfg(test)]
mod names;
#[cfg(test)]
mod nodes;
#[cfg(test)]
mod operations;
#[cfg(test)]
mod splits;
