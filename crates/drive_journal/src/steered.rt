//! A coordinator beside the journal of its events.
//!
//! Layer: switches outside; public. Called by `drive`, `drive_desk` and `parts` here, and by drive_workers.
use crate::intake::{count_told, take_in};
use crate::name::DriveName;
use crate::refused::Rejection;
use crate::steering::Steering;
use openflow_wire::Message;
use outside_net::{Link, Receipt};
use std::alloc::{AllocError, Global};
use std::marker::{Model, PhantomData};
use update_coordinator::Coordinator;

/// A coordinator, the journal that led to it from the start that `L` names, the reports that were kept for drains, and
/// the end that was kept if it has halted.
#[derive(Drop)]
pub struct DriveState<L: DriveName, E: Link, Q: Receipt> {
    pub(crate) coordinator: Coordinator,
    pub(crate) journal: Vec<Steering>,
    pub(crate) receipts: Vec<Q>,
    pub(crate) ends: Vec<E>,
    // How many messages of each switch were heard.
    pub(crate) told: Vec<usize>,
    pub(crate) of: PhantomData<L>,
}

impl<L: DriveName, E: Link, Q: Receipt> Model for DriveState<L, E, Q> {
    ghost use Rattle.std.specs.Prelude.{◌≡◌, length};
    ghost use Rattle.drive_journal.specs.Journals.{AreCounts, AreWritable, IsSteered, SteeredValue};
    ghost use Rattle.drive_journal.specs.Losses.{HaltsAtLoss};

    ghost Value = { SteeredValue E Q };

    ghost view = { λ h. record
        { control = h.coordinator; journal = h.journal.items; receipts = h.receipts.items; ends = h.ends.items } };

    ghost invariant = { λ h. IsSteered E.named E.faults E.received Q.stamped L.start h.coordinator h.journal.items
        h.receipts.items h.ends.items × AreCounts h.journal.items h.told.items ×
        (length h.told.items ≡ length L.start.peers) × (length h.coordinator.peers ≡ length L.start.peers) ×
        AreWritable h.journal.items × HaltsAtLoss h.coordinator };
}

impl<L: DriveName, E: Link, Q: Receipt> DriveState<L, E, Q> {
    ghost use Rattle.std.specs.Prelude.{◌≡◌, ◌≢◌, ◌<◌, ◌++◌, ◌∷◌, [], None, OnOk, OnErr, IfOk, IfErr, length};
    ghost use Rattle.update_coordinator.specs.Calls.{begin_refusal, drain_refusal};
    ghost use Rattle.update_coordinator.specs.Sending.{MaySend};
    ghost use Rattle.drive_journal.specs.declared.steering.Steering.TheVariants as steering;
    ghost use Rattle.drive_journal.specs.Cuts.{Halts, HandsBack, IsAmong, KeepsEnd, NotesEvent, Refuses, Sends};
    ghost use Rattle.drive_journal.specs.Journals.{IsWritable, MetBy};
    ghost use Rattle.drive_journal.specs.Losses.{HaltsAtLoss};
    ghost use Rattle.drive_journal.specs.Steering.{Steers};

    /// A coordinator at its start, with an empty journal. A session that is lost halts it.
    pub fn make(alloc: Global, coordinator: Coordinator) -> Result<DriveState<L, E, Q>, AllocError>
        requires start { coordinator ≡ L.start }
        requires runs { coordinator.halt ≡ None }
        requires losses { HaltsAtLoss coordinator }
        ensures { IfOk result (λ s. s ≡ record { control = coordinator; journal = []; receipts = []; ends = [] }) }
    {
        let count = coordinator.switch_count();
        let told = vec![in alloc; 0usize; count]?;
        Ok(DriveState {
            coordinator,
            journal: Vec::new(alloc),
            receipts: Vec::new(alloc),
            ends: Vec::new(alloc),
            told,
            of: PhantomData,
        })
    }

    /// Begins the next update, and notes it.
    pub fn begin(&mut self) -> Result<(), Rejection<()>>
        ensures begun { OnOk result (NotesEvent steering.Begin self.old self.new) }
        ensures refused { IfErr result (Refuses (begin_refusal self.old.control ≢ None)) }
        ensures err { OnErr result (self.new ≡ self.old) }
    {
        let Ok(()) = self.journal.reserve(1) else {
            return Err(Rejection::Memory(()));
        };
        let Ok(()) = self.coordinator.begin() else {
            return Err(Rejection::NotEnabled(()));
        };
        self.journal.push_reserved(Steering::Begin);
        Ok(())
    }

    /// Sends the next message to the switch at a place, and notes it. A copy of it is given, unless memory
    /// runs out after the message was noted.
    pub fn send(&mut self, alloc: Global, place: usize) -> Result<Option<Message>, Rejection<()>>
        requires { place < length L.start.peers }
        ensures sent { IfOk result (λ copy. Sends place copy self.old self.new) }
        ensures refused { IfErr result (Refuses (¬ MaySend place self.old.control)) }
        ensures err { OnErr result (self.new ≡ self.old) }
    {
        let Ok(()) = self.journal.reserve(1) else {
            return Err(Rejection::Memory(()));
        };
        let message = match self.coordinator.next_out(place) {
            Ok(Some(message)) => message,
            Ok(None) => return Err(Rejection::NotEnabled(())),
            Err(AllocError) => return Err(Rejection::Memory(())),
        };
        let copy = message.copy(alloc).ok();
        self.journal.push_reserved(Steering::Send(place, message));
        Ok(copy)
    }

    /// Takes the report that no packet carries a stamp any more, and keeps it.
    pub fn drained(&mut self, receipt: Q) -> Result<(), Rejection<Q>>
        ensures step { OnOk result (Steers self.old.control (steering.Drained (Q.stamped receipt)) self.new.control) }
        ensures refused { IfErr result (Refuses (drain_refusal self.old.control (Q.stamped receipt) ≢ None)) }
        ensures journal { OnOk result
            (self.new.journal ≡ self.old.journal ++ steering.Drained (Q.stamped receipt) ∷ []) }
        ensures receipts { OnOk result (self.new.receipts ≡ self.old.receipts ++ receipt ∷ []) }
        ensures ends { OnOk result (self.new.ends ≡ self.old.ends) }
        ensures err { OnErr result (self.new ≡ self.old) }
        ensures back { IfErr result (HandsBack receipt) }
    {
        let Ok(()) = self.journal.reserve(1) else {
            return Err(Rejection::Memory(receipt));
        };
        let Ok(()) = self.receipts.reserve(1) else {
            return Err(Rejection::Memory(receipt));
        };
        let stamp = receipt.stamp();
        let Ok(()) = self.coordinator.drained(stamp) else {
            return Err(Rejection::NotEnabled(receipt));
        };
        self.journal.push_reserved(Steering::Drained(stamp));
        self.receipts.push_reserved(receipt);
        Ok(())
    }

    /// Does what came over an end: a message, a fault of the stream, or that the session is lost. The end is kept if
    /// this halts the coordinator, and else it comes back.
    pub fn cut(&mut self, event: Steering, end: E) -> Result<Option<E>, Rejection<E>>
        requires place { IsAmong (length L.start.peers) event }
        requires met { MetBy E.named E.faults E.received self.old.journal event end }
        requires fits { IsWritable event }
        ensures step { OnOk result (Steers self.old.control event self.new.control) }
        ensures refused { IfErr result (Refuses (self.old.control.halt ≢ None)) }
        ensures journal { OnOk result (self.new.journal ≡ self.old.journal ++ event ∷ []) }
        ensures kept { IfOk result (KeepsEnd end self.old.ends self.new) }
        ensures halts { IfOk result (λ back. Halts event → back ≡ None) }
        ensures receipts { OnOk result (self.new.receipts ≡ self.old.receipts) }
        ensures err { OnErr result (self.new ≡ self.old) }
        ensures back { IfErr result (HandsBack end) }
    {
        let Ok(()) = self.journal.reserve(1) else {
            return Err(Rejection::Memory(end));
        };
        let Ok(()) = self.ends.reserve(1) else {
            return Err(Rejection::Memory(end));
        };
        if !take_in(&mut self.coordinator, &event) {
            return Err(Rejection::NotEnabled(end));
        }
        count_told(&mut self.told, &self.journal, &event);
        self.journal.push_reserved(event);
        if self.coordinator.halt().is_none() {
            return Ok(Some(end));
        }
        self.ends.push_reserved(end);
        Ok(None)
    }
}
