//! Why a text is no document.
//!
//! Layer: texts that are read; public. Called by many modules here, and by many crates.
use nk_values::TextFault;
use std::alloc::{AllocError, AllocFailed};
use thiserror::Error;

/// A fault and where it is: its line and column, both from 1. Outside policies the column is 1.
#[derive(Clone, Copy, Debug, PartialEq, Eq, Error)]
#[error("line {line} column {column}: {fault}")]
pub struct DocFault {
    pub fault: TextFault,
    pub line: u64,
    pub column: u64,
}

/// Why no document was read: the text's first fault, or out of memory.
#[derive(Clone, Copy, Debug, PartialEq, Eq, Error)]
pub enum DocumentError {
    #[error("{0}")]
    Fault(DocFault),
    #[error("out of memory")]
    Memory,
}

impl From<AllocError> for DocumentError {
    ghost use Rattle.std.specs.Prelude.{◌≡◌};
    ghost use Rattle.document_text.specs.declared.fault.DocumentError.TheVariants.{Memory};

    ghost from_gives = { λ _ e. e ≡ Memory };

    fn from(_: AllocError) -> Self {
        DocumentError::Memory
    }
}

impl<T: Drop> From<AllocFailed<T>> for DocumentError {
    ghost use Rattle.std.specs.Prelude.{◌≡◌};
    ghost use Rattle.document_text.specs.declared.fault.DocumentError.TheVariants.{Memory};

    ghost from_gives = { λ _ e. e ≡ Memory };

    fn from(_: AllocFailed<T>) -> Self {
        DocumentError::Memory
    }
}

/// Why a line is not taken.
#[derive(Clone, Copy, Debug, PartialEq, Eq)]
pub enum Stop {
    Fault(TextFault),
    Memory,
}

impl From<AllocError> for Stop {
    ghost use Rattle.std.specs.Prelude.{◌≡◌};
    ghost use Rattle.document_text.specs.declared.fault.Stop.TheVariants.{Memory};

    ghost from_gives = { λ _ e. e ≡ Memory };

    fn from(_: AllocError) -> Self {
        Stop::Memory
    }
}

impl<T: Drop> From<AllocFailed<T>> for Stop {
    ghost use Rattle.std.specs.Prelude.{◌≡◌};
    ghost use Rattle.document_text.specs.declared.fault.Stop.TheVariants.{Memory};

    ghost from_gives = { λ _ e. e ≡ Memory };

    fn from(_: AllocFailed<T>) -> Self {
        Stop::Memory
    }
}
