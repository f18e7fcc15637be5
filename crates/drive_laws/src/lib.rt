//! What the controller does with switches of its own is what it does with those outside, as laws over values.
//!
//! Layer: laws alone. The root of the crate, which no code calls.
#![tactic(auto)]

mod laws;

pub use laws::{runs_are_driven, steering_is_enabled};
