//! `nkctl drive`: the switches outside are taken from one policy to the next (SIGCOMM 2012, section 5).
//!
//! Layer: the program. The root of the crate, which controller_program calls.
#![tactic(auto)]

mod beginning;
mod drive;

pub use drive::drive_answer;
