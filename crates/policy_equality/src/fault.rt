//! Why two policies are not compared.
//!
//! Layer: diagrams; public. Called by `comparison` here, and by equal_command.
use fdd_apart::Side;
use nk_values::CompileFault;
use std::alloc::AllocError;
use thiserror::Error;

/// A policy has no diagram, or memory ran out.
#[derive(Clone, Copy, Debug, PartialEq, Eq, Error)]
pub enum CompareError {
    /// The fault of one of the two policies.
    #[error("{fault}")]
    Fault { side: Side, fault: CompileFault },
    #[error("out of memory")]
    Memory,
}

impl From<AllocError> for CompareError {
    ghost use Rattle.std.specs.Prelude.{◌≡◌};
    ghost use Rattle.policy_equality.specs.declared.fault.CompareError.TheVariants.{Memory};

    ghost from_gives = { λ _ e. e ≡ Memory };

    fn from(_: AllocError) -> Self {
        CompareError::Memory
    }
}
