//! Split diagrams: no two copies of a leaf give one packet (ICFP 2015, section 3, with histories that come once).
//!
//! Layer: diagrams. The root of the crate, which fdd_compile calls.
#![tactic(auto)]

mod barring;
mod bars;
mod branches;
mod laws;
mod leaves;
mod memo;
mod pairs;
mod plain;
mod splits;
mod threats;

pub use bars::Bar;
pub use laws::{divided_answer_alike, divided_are_ordered, divided_are_split};
pub use splits::split;
