//! Copies in flight, in queues by the switches that they came to, and in the order in which they were sent.
//!
//! Layer: rows and packets. The root of the crate, which many crates call.
#![tactic(auto)]

mod copies;
mod flights;
mod numbered;
mod queue;

pub use copies::Copies;
pub use flights::Flights;
pub use numbered::{Mark, NumberedFlight};
pub use queue::Queue;
