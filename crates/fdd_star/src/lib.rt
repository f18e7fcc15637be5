//! Stars: the finite repetition of a diagram (ICFP 2015, section 3).
//!
//! Layer: diagrams. The root of the crate, which fdd_compile calls.
#![tactic(auto)]

mod cells;
mod ending;
mod fault;
mod found;
mod keys;
mod last;
mod names;
mod narrow;
mod numbers;
mod parts;
mod progress;
mod reach;
mod repetition;
mod scope;
mod shared;
mod visits;

pub use ending::ended_star;
pub use fault::{StarError, StarFault};
pub use repetition::star;
