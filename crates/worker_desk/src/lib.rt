//! What a worker of a session or of a switch asks of the run that it works for, and the gate that it passes.
//!
//! Layer: runs. The root of the crate, which many crates call.
#![tactic(auto)]

mod desk;
mod gate;
mod host;

pub use desk::{Desk, IdleTask, MadeStep, TellResult, WorkerTask};
pub use gate::{Gate, Moment, OpenGate, StepKind};
pub use host::Host;
