//! What a drive is named after.
//!
//! Layer: switches outside; public. Called by many modules here, and by drive_workers.
ghost use Rattle.std.specs.Prelude.{[], None};
ghost use Rattle.update_coordinator.specs.Controls.{Control};
ghost use Rattle.update_coordinator.specs.Starts.{initial_control};

use std::marker::Brand;

/// Names the start of a drive, in contracts alone.
pub trait DriveName {
    /// The coordinator at the start.
    ghost start: { Control };
}

impl DriveName for Brand {
    ghost start = { initial_control [] [] 0 None };
}
