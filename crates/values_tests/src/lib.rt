//! Tests of values: what no clause says, that calls succeed where memory is there.
//!
//! Layer: tests. The root of the crate, which no code calls.
#![tactic(auto)]

#[cfg(test)]
mod histories;
#[cfg(test)]
mod rows;
