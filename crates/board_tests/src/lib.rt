//! Tests of a board: what no clause says, that a read gives what was posted.
//!
//! Layer: tests. The root of the crate, which no code calls.
#![tactic(auto)]

#[cfg(test)]
mod reads;
#[cfg(test)]
mod threads;
