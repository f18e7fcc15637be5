//! Well-shaped packets that tell two diagrams of a store apart (ICFP 2015, section 3).
//!
//! Layer: diagrams. The root of the crate, which policy_equality calls.
#![tactic(auto)]

mod finding;
mod kinds;
mod outputs;
mod walk;

pub use finding::{Difference, Side, apart_in};
