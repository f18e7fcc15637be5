//! Losses and returns of sessions in whole runs of updates: what no clause says, that the updates go on to their end.
//!
//! Layer: tests. The root of the crate, which no code calls.
#![tactic(auto)]

#[cfg(test)]
mod returns;
#[cfg(test)]
mod worlds;
