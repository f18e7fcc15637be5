//! How many rows of a list are there.
//!
//! Layer: updates; private. Called by `planned`.
ghost use Rattle.std.specs.Prelude.{◌≡◌};
ghost use Rattle.update_coordinator.specs.Batches.{portion_len};

/// How many rows are there of a list that comes or goes round by round.
#[derive(Clone, Copy, PartialEq, Eq)]
pub(crate) enum Portion {
    /// A number of the first ones.
    First(usize),
    /// All but a number of the last ones.
    AllBut(usize),
}

impl Portion {
    pub(crate) fn len(self, all: usize) -> usize
        ensures { result ≡ portion_len self all }
    {
        match self {
            Portion::First(count) => count,
            Portion::AllBut(count) => all.saturating_sub(count),
        }
    }
}
