//! The commands that need no threads, each a module and a file of definitions: `rules`, `trace`, `simulate` and
//! `generate`.
//!
//! Layer: the program. The root of the crate, which audit_command and controller_program call.
#![tactic(auto)]

mod generate;
mod laws;
mod outcome;
mod rules;
mod schedule;
mod simulate;
mod trace;

pub use generate::generate_answer;
pub use laws::one_simulation;
pub use outcome::{Outcome, schedule_outcome};
pub use rules::rules_answer;
pub use simulate::simulate_answer;
pub use trace::trace_answer;
