//! Topologies: switches with their ports, links and edge ports.
//!
//! Layer: values and policies. The root of the crate, which many crates call.
#![tactic(auto)]

mod draft;
mod fault;
mod line;
mod terms;
mod topology;

pub use draft::{Draft, MOST_PORTS, MOST_SWITCHES};
pub use fault::{LineError, TopoError};
pub use line::{DeclaredSwitch, PortRef, Ports, TopoLine};
pub use topology::Topology;
