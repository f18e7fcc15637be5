//! The text of a drive of outside switches: its events, and where it ended.
//!
//! Layer: switches outside. The root of the crate, which drive_command calls.
#![tactic(auto)]

mod drives;

pub use drives::drive_text;
