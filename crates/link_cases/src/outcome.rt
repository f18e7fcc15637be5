//! How a call of the program ended.
//!
//! Layer: tests; private. Called by many modules.
use controller_program::Status;
use outside_io::MemorySink;
use std::alloc::{AllocError, Global};
use std::str;

/// How a call ended, and what it wrote.
#[derive(Drop)]
pub struct Outcome {
    pub status: Status,
    pub text: String,
}

/// What a status and a sink come to.
pub fn outcome_of(alloc: Global, status: Status, sink: &MemorySink) -> Result<Outcome, AllocError> {
    let text = str::from_utf8(sink.bytes()).unwrap_or("").to_string(alloc)?;
    Ok(Outcome { status, text })
}
