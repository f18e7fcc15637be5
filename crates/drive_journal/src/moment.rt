//! What all workers of a drive wait for.
//!
//! Layer: switches outside; private. Called by `desk_calls` and `drive_desk`.
ghost use Rattle.std.specs.Prelude.{◌≡◌, true};
ghost use Rattle.drive_journal.specs.Drives.{IsDone};

use crate::drive::Drive;
use crate::name::DriveName;
use outside_net::{Link, Receipt};
use status_board::Post;
use update_coordinator::Phase;

// What decides for all workers whether there is something to do: the phase, and whether the coordinator has halted.
#[derive(Clone, Copy, Debug, PartialEq, Eq)]
pub(crate) struct Moment {
    phase: Phase,
    halted: bool,
}

pub(crate) fn moment_of<L: DriveName, E: Link, Q: Receipt>(
    drive: &Option<Drive<L, E, Q>>,
) -> Option<Moment> {
    let coordinator = drive.as_ref()?.coordinator();
    Some(Moment {
        phase: coordinator.phase(),
        halted: coordinator.halt().is_some(),
    })
}

// Where a drive stands: how many events it has, the phase, and whether the coordinator has halted.
pub(crate) fn stand_of<L: DriveName, E: Link, Q: Receipt>(
    drive: &Option<Drive<L, E, Q>>,
) -> Option<Post> {
    let drive = drive.as_ref()?;
    let coordinator = drive.coordinator();
    Some(Post {
        count: drive.held.journal.len() as u64,
        phase: coordinator.phase(),
        halted: coordinator.halt().is_some(),
    })
}

// Whether there is a drive, and it is closed or over.
pub(crate) fn is_done<L: DriveName, E: Link, Q: Receipt>(drive: &Option<Drive<L, E, Q>>) -> bool
    ensures { result ≡ true → IsDone drive.now }
{
    match drive {
        None => false,
        Some(drive) => drive.is_closed() || drive.is_over(),
    }
}
