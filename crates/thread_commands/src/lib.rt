//! The commands that need links and threads, each a module and a file of definitions: `run` and `watch`.
//!
//! Layer: the program. The root of the crate, which controller_program calls.
#![tactic(auto)]

mod document_run;
mod kept;
mod run;
mod watch;

pub use fleet_workers::{Onlooker, Sighting};
pub use run::run_answer;
pub use watch::watch_answer;
