//! Tests of printed texts, whole.
//!
//! Layer: tests. The root of the crate, which no code calls.
#![tactic(auto)]

#[cfg(test)]
mod faults;
#[cfg(test)]
mod histories;
#[cfg(test)]
mod reports;
#[cfg(test)]
mod rules;
#[cfg(test)]
mod traces;
#[cfg(test)]
mod worlds;
