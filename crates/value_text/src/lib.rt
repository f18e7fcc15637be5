//! The texts of what policies and packets are: values, patterns, rows, histories, traces, and the lines of faults.
//!
//! Layer: the program. The root of the crate, which many crates call.
#![tactic(auto)]

mod equality;
mod fault;
mod faults;
mod hex;
mod histories;
mod lines;
mod numbers;
mod rules;
mod text;
mod traces;
mod values;

pub use equality::{apart_text, equal_text};
pub use fault::Fault;
pub use faults::{NET_FAULT, NO_THREAD, READ_FAULT, REPORT_FAULT, USAGE, fault_text, fixed_line};
pub use hex::put_hex_byte;
pub use histories::{history_text, put_history};
pub use lines::{history_lines, line_of, put_lines, sort_lines};
pub use numbers::put_number;
pub use rules::{put_row, rules_text};
pub use text::Text;
pub use traces::{put_policy_line, put_walk, trace_text};
pub use values::{put_fields, put_place};
