//! Where a worker of a drive sits.
//!
//! Layer: switches outside; public. Called by `desk_calls` here, and by drive_workers.
ghost use Rattle.std.specs.Prelude.{◌≡◌};

/// The worker of the switch at a place, from 0.
#[derive(Clone, Copy, Debug, PartialEq, Eq)]
pub struct DriveSeat {
    pub(crate) place: usize,
    // Whether what it told last was not asked for, and it did not look for more.
    pub(crate) heard: bool,
}

impl DriveSeat {
    /// A worker that told nothing yet.
    pub fn new(place: usize) -> DriveSeat
        ensures { result.place ≡ place }
    {
        DriveSeat {
            place,
            heard: false,
        }
    }
}
