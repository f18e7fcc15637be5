//! `nkctl audit`: what `simulate` reports, and how the table of each switch differs from the rows that the update in
//! progress gives it.
//!
//! Layer: the program. The root of the crate, which controller_program calls.
#![tactic(auto)]

mod audit;
mod lines;

pub use audit::audit_answer;
pub use lines::put_audit;
