//! What flow tables do with packets: one hop, and the whole way by the rows of a policy.
//!
//! Layer: rows and packets. The root of the crate, which many crates call.
#![tactic(auto)]

mod flight;
mod hopping;
mod laws;
mod order;
mod ordered;
mod sending;
mod walking;

pub use flight::{Flight, HopResult, Walk};
pub use hopping::hop;
pub use laws::{hops_keep_futures, hops_part, walks_are_ways};
pub use ordered::OrderedRows;
pub use walking::walk;
