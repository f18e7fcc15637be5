//! Why lines make no topology.
//!
//! Layer: values and policies; public. Called by `adding` and `building` here, and by many crates.
ghost use Rattle.std.specs.Prelude.{◌≡◌};

use nk_values::TextFault;
use std::alloc::AllocError;
use thiserror::Error;

/// Why a line could not be added.
#[derive(Clone, Copy, Debug, PartialEq, Eq, Error)]
pub enum LineError {
    #[error("{0}")]
    Fault(TextFault),
    #[error("out of memory")]
    Memory,
}

impl From<AllocError> for LineError {
    ghost use Rattle.std.specs.Prelude.{◌≡◌};
    ghost use Rattle.topology_model.specs.declared.fault.LineError.TheVariants.{Memory};

    ghost from_gives = { λ _ e. e ≡ Memory };

    fn from(_: AllocError) -> Self {
        LineError::Memory
    }
}

impl LineError {
    ghost use Rattle.topology_model.specs.Causes.{at_place};

    /// The same, at a place of the list.
    pub fn at(self, place: usize) -> TopoError
        ensures { result ≡ at_place self place }
    {
        match self {
            LineError::Fault(fault) => TopoError::Fault { fault, place },
            LineError::Memory => TopoError::Memory,
        }
    }
}

/// Why lines make no topology: the first fault, with the place of its line in the list
/// (for `NoEdge` the list's length), or out of memory.
#[derive(Clone, Copy, Debug, PartialEq, Eq, Error)]
pub enum TopoError {
    #[error("{fault}")]
    Fault { fault: TextFault, place: usize },
    #[error("out of memory")]
    Memory,
}

impl From<AllocError> for TopoError {
    ghost use Rattle.std.specs.Prelude.{◌≡◌};
    ghost use Rattle.topology_model.specs.declared.fault.TopoError.TheVariants.{Memory};

    ghost from_gives = { λ _ e. e ≡ Memory };

    fn from(_: AllocError) -> Self {
        TopoError::Memory
    }
}
