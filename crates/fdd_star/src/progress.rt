//! How far a star is made.
//!
//! Layer: diagrams; private. Called by `ending`, `parts` and `repetition`.
use crate::found::Findings;
use indexmap::IndexSet;
use nk_values::Lit;
use std::alloc::Global;

/// How far a star is made.
#[derive(Drop)]
pub(crate) struct Progress {
    pub(crate) found: Findings,
    /// The literals that no packet of the next part holds.
    pub(crate) missed: IndexSet<Lit>,
}

impl Progress {
    ghost use Rattle.std.specs.Prelude.{◌≡◌, []};
    ghost use Rattle.fdd_star.specs.Found.{AreFound};
    ghost use Rattle.fdd_store.specs.Stores.{Kept};

    /// Nothing is found or missed yet.
    pub(crate) fn new(alloc: Global) -> Progress
        ensures found { (k : Kept) → AreFound k result.found }
        ensures missed { result.missed.keys ≡ [] }
    {
        Progress {
            found: Findings::new(alloc),
            missed: IndexSet::new(alloc),
        }
    }
}
