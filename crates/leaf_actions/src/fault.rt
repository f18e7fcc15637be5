//! Why no list of actions makes the copies of a leaf.
//!
//! Layer: rows and packets; public. Called by `made` and `pairs` here, and by table_emitter and table_tests. Clauses of
//! workload_laws name it.
use crate::route::Route;
use nk_values::Field;
use std::alloc::AllocError;
use std::fmt;
use thiserror::Error;

/// Why no list of actions makes all copies: no action gives a field back its original number. The copies `a` and `b`,
/// in the order of listing, each set a header field which the other leaves and the path does not fix. The first such
/// field of each is told.
#[derive(Drop, Error)]
#[error("no order of the copies makes both")]
pub struct ActionsFault {
    pub a: Route,
    pub b: Route,
    pub field_a: Field,
    pub field_b: Field,
}

impl fmt::Debug for ActionsFault {
    fn fmt<W: fmt::Write>(&self, f: &mut fmt::Formatter<W>) -> fmt::Result {
        f.write_str("ActionsFault")
    }
}

/// No list of actions makes all the copies, or memory ran out.
#[derive(Debug, Drop, Error)]
pub enum ActionsError {
    #[error("{0}")]
    Fault(ActionsFault),
    #[error("out of memory")]
    Memory,
}

impl From<AllocError> for ActionsError {
    ghost use Rattle.std.specs.Prelude.{◌≡◌};
    ghost use Rattle.leaf_actions.specs.declared.fault.ActionsError.TheVariants.{Memory};

    ghost from_gives = { λ f e. e ≡ Memory };

    fn from(_error: AllocError) -> Self {
        ActionsError::Memory
    }
}
