//! The lines of events in reports, as laws, each the contract of a call that does nothing.
//!
//! Layer: laws alone. The root of the crate, which no code calls.
#![tactic(auto)]

mod laws;

pub use laws::{lines_tell, printed_is_read};
