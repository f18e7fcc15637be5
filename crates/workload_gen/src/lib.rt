//! Workloads from a number: documents that a generator of random words draws, and runs by events that it draws.
//!
//! Layer: the world. The root of the crate, which plain_commands, rejoin_tests and workload_cases call.
#![tactic(auto)]

mod compiling;
mod counting;
mod documents;
mod drawing;
mod driving;
mod finding;
mod laws;
mod others;
mod policies;
mod sums;
mod tally;
mod words;

pub use compiling::versions;
pub use documents::generate;
pub use drawing::draw;
pub use driving::{DrawnRun, drive};
pub use laws::runs_end;
