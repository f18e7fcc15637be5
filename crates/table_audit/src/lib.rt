//! The tables of a world's switches, asked for by flow statistics (OpenFlow 1.0.0, 5.3.5), against the rows that the
//! update in progress gives them.
//!
//! Layer: the world. The root of the crate, which audit_command calls.
#![tactic(auto)]

mod auditing;
mod laws;
mod report;

pub use auditing::audit_switch;
pub use laws::tables_follow;
