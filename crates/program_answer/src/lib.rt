//! What the commands of the program share: the status of a call, an answer or why there is none, the reading of a
//! document with a version for each of its policies, and the one writing of a call.
//!
//! Layer: the program. The root of the crate, which many crates call.
#![tactic(auto)]

mod answer;
mod input;
mod lines;
mod reading;
mod ready;
mod report;
mod settings;
mod status;
mod versions;
mod writing;

pub use answer::{Answer, AnswerError};
pub use input::{Input, read_input};
pub use reading::{ReadDocument, read_source};
pub use ready::{Parts, ReadyDocument};
pub use report::world_answer;
pub use report_text::Fault;
pub use settings::world_settings;
pub use status::Status;
pub use writing::say;
