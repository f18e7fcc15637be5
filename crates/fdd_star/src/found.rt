//! What was found of stars.
//!
//! Layer: diagrams; private. Called by many modules.
use crate::last::LastCopies;
use crate::numbers::NumberSet;
use crate::visits::Visits;
use std::alloc::Global;

// How many places of diagrams may be gone through to narrow bodies, and one more for each four copies that were found.
const FIRST_ALLOWANCE: usize = 1_048_576;

/// The places of a store's diagrams that are gone through to narrow bodies.
#[derive(Drop)]
pub(crate) struct Places {
    /// How many may still be gone through.
    pub(crate) allowance: usize,
    /// Those that were gone through from one cell.
    pub(crate) done: NumberSet,
}

impl Places {
    fn new(alloc: Global) -> Places {
        Places {
            allowance: FIRST_ALLOWANCE,
            done: NumberSet::new(alloc),
        }
    }

    /// Lets so many more be gone through.
    pub(crate) fn allow(&mut self, more: usize) {
        self.allowance = self.allowance.saturating_add(more);
    }
}

/// What was found of the stars of a store's diagrams: where packets come to, the last copies that were made, and the
/// places that are gone through.
#[derive(Drop)]
pub(crate) struct Findings {
    pub(crate) visits: Visits,
    pub(crate) last: LastCopies,
    pub(crate) places: Places,
}

impl Findings {
    ghost use Rattle.fdd_star.specs.Found.{AreFound};
    ghost use Rattle.fdd_store.specs.Stores.{Kept};

    /// Nothing yet.
    pub(crate) fn new(alloc: Global) -> Findings
        ensures { (k : Kept) → AreFound k result }
    {
        Findings {
            visits: Visits::new(alloc),
            last: LastCopies::new(alloc),
            places: Places::new(alloc),
        }
    }
}
