//! Why a star can't be made.
//!
//! Layer: diagrams; public. Called by many modules here, and by fdd_compile.
use nk_values::Packet;
use std::alloc::AllocError;
use thiserror::Error;

/// Why a star can't be made: a packet, and an output of it that takes 513 iterations.
#[derive(Debug, Clone, Copy, Error)]
#[error("a star has an output that takes 513 iterations")]
pub struct StarFault {
    pub packet: Packet,
    pub output: Packet,
}

/// A star can't be made, or memory ran out.
#[derive(Debug, Drop, Error)]
pub enum StarError {
    #[error("{0}")]
    Fault(StarFault),
    #[error("out of memory")]
    Memory,
}

impl From<AllocError> for StarError {
    ghost use Rattle.std.specs.Prelude.{◌≡◌};
    ghost use Rattle.fdd_star.specs.declared.fault.StarError.TheVariants.{Memory};

    ghost from_gives = { λ _ e. e ≡ Memory };

    fn from(_: AllocError) -> Self {
        StarError::Memory
    }
}
