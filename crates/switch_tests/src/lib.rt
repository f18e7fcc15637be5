//! Tests of switches: bytes of their answers, and that calls succeed where memory is there.
//!
//! Layer: tests. The root of the crate, which no code calls.
#![tactic(auto)]

#[cfg(test)]
mod answers;
#[cfg(test)]
mod barriers;
#[cfg(test)]
mod changes;
#[cfg(test)]
mod messages;
