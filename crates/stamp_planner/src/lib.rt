//! Which stamp the next policy gets.
//!
//! Layer: updates. The root of the crate, which flow_tests calls.
#![tactic(auto)]

mod planner;

pub use planner::{NoStamp, Planner};
