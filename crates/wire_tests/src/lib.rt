//! Tests of messages, streams and sessions: what no clause says, that calls succeed where memory is there.
//!
//! Layer: tests. The root of the crate, which no code calls.
#![tactic(auto)]

#[cfg(test)]
mod framing;
#[cfg(test)]
mod sessions;
#[cfg(test)]
mod wire;
