//! What a command comes to, before anything is written.
//!
//! Layer: the program; public. Called by many modules here, and by many crates.
use crate::status::Status;
use report_text::{Fault, Text};
use std::alloc::{AllocError, AllocFailed};
use thiserror::Error;

/// A report, and how the call ends once it is written: `Done` or `Halted`.
#[derive(Debug, Drop)]
pub struct Answer {
    pub status: Status,
    pub text: Text,
}

/// Why a command has no report.
#[derive(Clone, Copy, Debug, PartialEq, Eq, Error)]
pub enum AnswerError {
    /// A fault, whose line is written in place of the report.
    #[error("{0}")]
    Fault(Fault),
    /// Out of memory: nothing is written.
    #[error("out of memory")]
    Memory,
}

impl From<AllocError> for AnswerError {
    ghost use Rattle.std.specs.Prelude.{◌≡◌};
    ghost use Rattle.program_answer.specs.declared.answer.AnswerError.TheVariants.{Memory};

    ghost from_gives = { λ _ e. e ≡ Memory };

    fn from(_: AllocError) -> Self {
        AnswerError::Memory
    }
}

impl<T: Drop> From<AllocFailed<T>> for AnswerError {
    ghost use Rattle.std.specs.Prelude.{◌≡◌};
    ghost use Rattle.program_answer.specs.declared.answer.AnswerError.TheVariants.{Memory};

    ghost from_gives = { λ _ e. e ≡ Memory };

    fn from(_: AllocFailed<T>) -> Self {
        AnswerError::Memory
    }
}
