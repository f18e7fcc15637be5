//! Operations on diagrams of nodes: literals, union, sequence, negation and cofactor (ICFP 2015, section 3), and
//! diagrams that give no packet twice.
//!
//! Layer: diagrams. The root of the crate, which diagram_tests and fdd_compile call.
#![tactic(auto)]

mod ops;
mod parts;
mod within;

pub use ops::{assign, choice, cofactor, negate, one, sequence, split, test, union, zero};
