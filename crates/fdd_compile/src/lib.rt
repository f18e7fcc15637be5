//! Policies compiled to diagrams (ICFP 2015, section 3), and which policies have none that a switch can follow.
//!
//! Layer: diagrams. The root of the crate, which many crates call.
#![tactic(auto)]

mod bare;
mod build;
mod compiled;
mod compiler;
mod fault;
mod filters;
mod flat;
mod folds;
mod fronts;
mod guarded;
mod leftmost;
mod literal;
mod meanings;
mod named;
mod plain;
mod summand;
mod sums;

pub use compiled::CompiledPolicy;
pub use compiler::{Compiler, compile};
pub use fault::CompileError;
pub use leftmost::leftmost_fault;
pub use meanings::meaning;
pub use named::{add_names, names_few};
pub use nk_values::CompileFault;
