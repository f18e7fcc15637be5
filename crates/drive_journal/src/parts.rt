//! What a journal with its coordinator is made of.
//!
//! Layer: switches outside; private. Adds calls to `DriveState`.
use crate::name::DriveName;
use crate::steered::DriveState;
use crate::steering::Steering;
use outside_net::{Link, Receipt};
use update_coordinator::Coordinator;

impl<L: DriveName, E: Link, Q: Receipt> DriveState<L, E, Q> {
    ghost use Rattle.std.specs.Prelude.{◌≡◌, ◌<◌, length};
    ghost use Rattle.drive_journal.specs.Journals.{AreWritable, IsSteered, told_before};

    /// The coordinator.
    pub fn coordinator(&self) -> &Coordinator
        ensures is { result.now ≡ self.now.control }
        ensures count { length result.now.peers ≡ length L.start.peers }
    {
        &self.coordinator
    }

    /// The journal.
    pub fn journal(&self) -> &[Steering]
        ensures { result.now ≡ self.now.journal }
    {
        &self.journal
    }

    /// How many messages of the switch at a place were heard.
    pub fn told(&self, place: usize) -> usize
        requires { place < length L.start.peers }
        ensures { result ≡ told_before place self.now.journal }
    {
        self.told[place]
    }

    /// How many switches there are: as many as at the start.
    pub fn switch_count(&self) -> usize
        ensures here { result ≡ length self.now.control.peers }
        ensures start { result ≡ length L.start.peers }
    {
        self.coordinator.switch_count()
    }

    /// The coordinator, the journal, and what was kept.
    pub fn parts(self) -> (Coordinator, Vec<Steering>, Vec<Q>, Vec<E>)
        ensures control { result.0 ≡ self.control }
        ensures journal { result.1.items ≡ self.journal }
        ensures receipts { result.2.items ≡ self.receipts }
        ensures ends { result.3.items ≡ self.ends }
        ensures writable { AreWritable self.journal }
        ensures history { IsSteered E.named E.faults E.received Q.stamped L.start self.control self.journal
            self.receipts self.ends }
    {
        let DriveState {
            coordinator,
            journal,
            receipts,
            ends,
            told: _told,
            of: _of,
        } = self;
        (coordinator, journal, receipts, ends)
    }
}
