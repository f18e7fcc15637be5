//! Policies from their text.
//!
//! Layer: texts that are read. The root of the crate, which many crates call.
#![tactic(auto)]

mod advance;
mod chain;
mod fault;
mod feeding;
mod laws;
mod named;
mod number;
mod pair;
mod pairing;
mod parse;
mod reader;
mod reading;
mod run;
mod sign;
mod stage;
mod stray;
mod token;

pub use fault::{ParseError, ParseFault, Position};
pub use feeding::PolicyReader;
pub use laws::{names_few, one_reading, read_back};
pub use number::{GREATEST, cut, has_form, number_of, numeral};
pub use parse::{parse_policy, parse_policy_at, position_after};
pub use run::run_len;
pub use sign::is_run_byte;
