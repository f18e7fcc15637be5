//! What the worker of an outside switch tells of its end: a fault of the stream, a loss, and that it is closed.
//!
//! Layer: switches outside; private. Adds calls to `Drive`.
ghost use Rattle.std.specs.Prelude.{◌≡◌, ◌<◌, length};
ghost use Rattle.worker_desk.specs.Answers.{GivesBack, OnShutNewEnd};
ghost use Rattle.drive_journal.specs.declared.element.Element.TheVariants as elements;
ghost use Rattle.drive_journal.specs.Calls.{DriveLoses, HearsAs, IsNextElement, Shuts};
ghost use Rattle.drive_journal.specs.Drives.{Stops};
ghost use Rattle.drive_journal.specs.Journals.{told_before};

use crate::drive::Drive;
use crate::name::DriveName;
use crate::refused::Rejection;
use crate::steering::Steering;
use openflow_wire::WireFault;
use outside_net::{Link, Receipt};
use worker_desk::{IdleTask, TellResult};

impl<L: DriveName, E: Link, Q: Receipt> Drive<L, E, Q> {
    // The stream has a fault.
    pub(crate) fn garble(&mut self, place: usize, fault: WireFault, end: E) -> TellResult<E>
        requires place { place < length L.start.peers }
        requires name { E.named end ≡ place }
        requires next { IsNextElement (told_before place self.old.held.journal) (E.received end)
            (elements.Fault fault) }
        ensures answer { HearsAs place (elements.Fault fault) end self.old self.new result }
        ensures back { GivesBack end result }
    {
        match self.cut(Steering::Garbled(place, fault), end) {
            Ok(None) => TellResult::Kept,
            Ok(Some(_)) => unreachable!(),
            Err(Rejection::NotEnabled(end)) => TellResult::Back { end, made: None },
            Err(Rejection::Memory(end)) => TellResult::Memory(end),
        }
    }

    /// The end of the switch at a place failed: the session is lost, unless the coordinator has halted.
    pub fn lost(&mut self, place: usize, end: E) -> TellResult<E>
        requires place { place < length L.start.peers }
        requires name { E.named end ≡ place }
        requires failed { 0 < E.faults end }
        ensures answer { DriveLoses place end self.old self.new result }
        ensures back { GivesBack end result }
    {
        match self.cut(Steering::Lost(place), end) {
            Ok(None) => TellResult::Kept,
            Ok(Some(_)) => unreachable!(),
            Err(Rejection::NotEnabled(end)) => TellResult::Back { end, made: None },
            Err(Rejection::Memory(end)) => TellResult::Memory(end),
        }
    }

    /// Whether the worker of the switch at a place, whose end is closed, is to stop.
    pub fn shut(&self, place: usize) -> IdleTask<E>
        requires { place < length L.start.peers }
        ensures answer { Shuts (Stops self.now place) result }
        ensures same_end { OnShutNewEnd (λ _. ⊥) result }
    {
        if self.stops(place) {
            IdleTask::Stop
        } else {
            IdleTask::Nothing
        }
    }
}
