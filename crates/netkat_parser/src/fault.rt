//! Why a text is no policy.
//!
//! Layer: texts that are read; public. Called by `feeding`, `parse` and `reader` here, and by document_text,
//! policy_cases and text_tests.
use nk_values::TextFault;
use std::alloc::AllocError;
use thiserror::Error;

/// A position in a text: its line and column, both from 1, the column in bytes.
#[derive(Clone, Copy, Debug, PartialEq, Eq)]
pub struct Position {
    pub line: u64,
    pub column: u64,
}

/// A fault and where it is: its line and column, both from 1, the column in bytes.
#[derive(Clone, Copy, Debug, PartialEq, Eq, Error)]
#[error("line {line} column {column}: {fault}")]
pub struct ParseFault {
    pub fault: TextFault,
    pub line: u64,
    pub column: u64,
}

/// Why no policy was read: the text's first fault, or out of memory.
#[derive(Clone, Copy, Debug, PartialEq, Eq, Error)]
pub enum ParseError {
    #[error("{0}")]
    Fault(ParseFault),
    #[error("out of memory")]
    Memory,
}

impl From<AllocError> for ParseError {
    ghost use Rattle.std.specs.Prelude.{◌≡◌};
    ghost use Rattle.netkat_parser.specs.declared.fault.ParseError.TheVariants.{Memory};

    ghost from_gives = { λ _ e. e ≡ Memory };

    fn from(_: AllocError) -> Self {
        ParseError::Memory
    }
}
