//! Whether two policies give each well-shaped packet the same results (POPL 2014, section 4; ICFP 2015, section 3).
//!
//! Layer: diagrams. The root of the crate, which equal_command calls.
#![tactic(auto)]

mod comparison;
mod fault;
mod names;

pub use comparison::compare;
pub use fault::CompareError;
pub use fdd_apart::{Difference, Side};
