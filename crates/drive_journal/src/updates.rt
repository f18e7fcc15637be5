//! What the caller of a drive does: it begins updates and waits for the reports of drains.
//!
//! Layer: switches outside; public. Called by `drive` and `drive_desk` here, and by drive_workers.
ghost use Rattle.std.specs.Prelude.{◌↔◌, IsTrue};
ghost use Rattle.drive_journal.specs.Calls.{IsAwaitedBy};
ghost use Rattle.drive_journal.specs.Drives.{IsLast};

use crate::drive::Drive;
use crate::name::DriveName;
use crate::refused::Rejection;
use outside_net::{Link, Receipt};
use std::alloc::AllocError;
use update_coordinator::{Coordinator, Phase};

/// What the caller is to do.
#[derive(Clone, Copy, Debug, PartialEq, Eq)]
pub enum CallerTask {
    /// It has begun an update.
    Step,
    /// To wait for the report of this stamp: 1 to 4094.
    Wait(u16),
    /// To ask again.
    Nothing,
    /// To stop.
    Stop,
}

impl<L: DriveName, E: Link, Q: Receipt> Drive<L, E, Q> {
    ghost use Rattle.std.specs.Prelude.{◌≡◌, ◌↔◌, IsTrue, IfOk, OnErr};
    ghost use Rattle.drive_journal.specs.Calls.{Updates};
    ghost use Rattle.drive_journal.specs.Drives.{IsOver};

    /// Whether it is over: the coordinator has halted, or the last policy handles all packets.
    pub fn is_over(&self) -> bool
        ensures { IsTrue result ↔ IsOver self.now.held.control }
    {
        self.coordinator().halt().is_some() || is_last(self.coordinator())
    }

    /// Begins the next update, or says what the caller is to do.
    pub fn update(&mut self) -> Result<CallerTask, AllocError>
        ensures answer { IfOk result (Updates self.old self.new) }
        ensures memory { OnErr result (self.new ≡ self.old) }
    {
        if self.closed || self.is_over() {
            return Ok(CallerTask::Stop);
        }
        match self.held.begin() {
            Ok(()) => Ok(CallerTask::Step),
            Err(Rejection::Memory(())) => Err(AllocError),
            Err(Rejection::NotEnabled(())) => Ok(awaited(self.coordinator())),
        }
    }
}

// Whether the last policy handles all packets.
pub(crate) fn is_last(coordinator: &Coordinator) -> bool
    ensures { IsTrue result ↔ IsLast coordinator.now }
{
    match coordinator.phase() {
        Phase::Idle(policy) => policy == coordinator.versions().len(),
        _ => false,
    }
}

// What the caller is to wait for, if no update can begin.
fn awaited(coordinator: &Coordinator) -> CallerTask
    ensures { IsAwaitedBy coordinator.now result }
{
    match coordinator.leaving() {
        Some(stamp) => CallerTask::Wait(stamp),
        None => CallerTask::Nothing,
    }
}
