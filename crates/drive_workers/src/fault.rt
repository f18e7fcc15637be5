//! Drives that have no journal.
//!
//! Layer: switches outside; public. Called by many modules here, and by drive_command.

use std::alloc::AllocError;
use thiserror::Error;

/// Why a drive has no journal.
#[derive(Clone, Copy, Debug, PartialEq, Eq, Error)]
pub enum DriveFault {
    /// A port could not be opened.
    #[error("a port could not be opened")]
    Net,
    /// A thread could not be made.
    #[error("a thread could not be made")]
    NoThread,
    /// The reporter failed.
    #[error("the reporter failed")]
    Report,
}

/// A drive has no journal for a fault, or memory ran out.
#[derive(Clone, Copy, Debug, PartialEq, Eq, Error)]
pub enum DriveError {
    #[error("{0}")]
    Fault(DriveFault),
    #[error("out of memory")]
    Memory,
}

impl From<AllocError> for DriveError {
    ghost use Rattle.std.specs.Prelude.{◌≡◌};
    ghost use Rattle.drive_workers.specs.declared.fault.DriveError.TheVariants.{Memory};

    ghost from_gives = { λ _ e. e ≡ Memory };

    fn from(_: AllocError) -> Self {
        DriveError::Memory
    }
}
