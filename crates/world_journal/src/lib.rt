//! A world beside the journal of what happened to it, and the one lock over which workers share both.
//!
//! Layer: runs. The root of the crate, which fleet_workers and thread_commands call.
#![tactic(auto)]

mod ahead;
mod asked_moves;
mod asks;
mod bell;
mod calls;
mod entry;
mod held;
mod laws;
mod line;
mod moves;
mod name;
mod poster;
mod run;
mod run_desk;
mod seat;
mod sessions;
mod told;
mod updates;
mod watched;

pub use entry::Entry;
pub use held::{BookedWorld, CutError};
pub use laws::{hello_waits, sent_is_put};
pub use line::Line;
pub use moves::StepOutcome;
pub use name::RunName;
pub use poster::Poster;
pub use run::{Run, RunError, RunFault};
pub use run_desk::RunDesk;
pub use seat::{Role, Seat};
pub use update_coordinator::Side;
pub use updates::{Absence, Update};
pub use watched::WatchedRun;
pub use worker_desk::Desk;
