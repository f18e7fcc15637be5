//! `nkctl equiv`: whether two policies mean the same.
//!
//! Layer: the program. The root of the crate, which controller_program calls.
#![tactic(auto)]

mod equiv;

pub use equiv::equiv_answer;
