//! The words of events, which schedules and reports share.
//!
//! Layer: texts that are read. The root of the crate, which document_text, drive_text and report_text call.
#![tactic(auto)]

mod laws;
mod word;

pub use laws::words_are_read_again;
pub use word::EventWord;
