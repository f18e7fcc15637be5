//! Runs of the world, as laws, each the contract of a call that does nothing: what copies carry, and what halts the
//! updates.
//!
//! Layer: laws alone. The root of the crate, which no code calls.
#![tactic(auto)]

mod laws;

pub use laws::{copies_carry, halts_tell};
