//! Laws of policies that forward by one field.
//!
//! Layer: laws alone. The root of the crate, which workload_gen calls.
#![tactic(auto)]

mod accepted;
mod laws;

pub use accepted::version_of;
pub use laws::{compiles_always, emits_always, names_are_few, paths_are_few, workloads_forward};
