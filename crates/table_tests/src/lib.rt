//! Tests of lists of actions and of single hops. (Rows, refusals and walks are cases of the program.)
//!
//! Layer: tests. The root of the crate, which no code calls.
#![tactic(auto)]

#[cfg(test)]
mod actions;
#[cfg(test)]
mod hops;
#[cfg(test)]
mod networks;
#[cfg(test)]
mod shared;
