//! Laws of policies that answer packets alike.
//!
//! Layer: laws alone. The root of the crate, which no code calls.
#![tactic(auto)]

mod laws;

pub use laws::{alike_complete_alike, alike_open_alike};
