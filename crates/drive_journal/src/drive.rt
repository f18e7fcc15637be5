//! What lies under the one lock of a drive.
//!
//! Layer: switches outside; public. Called by many modules here, and by drive_workers.
ghost use Rattle.std.specs.Prelude.{◌≡◌, None, IfOk, replicate};

use crate::name::DriveName;
use crate::refused::Rejection;
use crate::steered::DriveState;
use crate::steering::Steering;
use crate::updates::is_last;
use openflow_wire::Message;
use outside_net::{Link, Receipt};
use std::alloc::{AllocError, Global};
use std::marker::Model;
use update_coordinator::Coordinator;

mod echoes;

use echoes::no_echoes;

/// A journal with its coordinator, whether the drive was closed, and the answers that are still to be sent.
pub struct Drive<L: DriveName, E: Link, Q: Receipt> {
    pub(crate) held: DriveState<L, E, Q>,
    pub(crate) closed: bool,
    echoes: Vec<Option<Message>>,
}

impl<L: DriveName, E: Link, Q: Receipt> Drop for Drive<L, E, Q> {
    fn drop(self) {
        let Drive {
            held: _held,
            closed: _closed,
            echoes: _echoes,
        } = self;
    }
}

impl<L: DriveName, E: Link, Q: Receipt> Model for Drive<L, E, Q> {
    ghost use Rattle.std.specs.Prelude.{◌≡◌, length};
    ghost use Rattle.drive_journal.specs.Drives.{DriveValue};
    ghost use Rattle.drive_journal.specs.Elements.{AreFitting};

    ghost Value = { DriveValue E Q };

    ghost view = { λ d. record { held = d.held; closed = d.closed; echoes = d.echoes.items } };

    ghost invariant = { λ d. AreFitting d.echoes.items × (length d.echoes.items ≡ length L.start.peers) };
}

impl<L: DriveName, E: Link, Q: Receipt> Drive<L, E, Q> {
    ghost use Rattle.std.specs.Prelude.{◌≡◌, ◌≢◌, ◌<◌, ◌↔◌, ◌++◌, ◌∷◌, [], None, true, false, IsTrue, IfOk, IfErr};
    ghost use Rattle.std.specs.Prelude.{OnOk, OnErr, length, replicate};
    ghost use Rattle.update_coordinator.specs.Calls.{drain_refusal};
    ghost use Rattle.update_coordinator.specs.Sending.{MaySend};
    ghost use Rattle.drive_journal.specs.declared.steering.Steering.TheVariants as steering;
    ghost use Rattle.drive_journal.specs.Cuts.{Halts, HandsBack, IsAmong, KeepsEnd, Refuses, Sends};
    ghost use Rattle.drive_journal.specs.Drives.{IsBeside, Stops};
    ghost use Rattle.drive_journal.specs.Journals.{IsWritable, MetBy, told_before};
    ghost use Rattle.drive_journal.specs.Steering.{Steers};

    /// A drive that begins: no answer is to be sent.
    pub fn new(alloc: Global, held: DriveState<L, E, Q>) -> Result<Drive<L, E, Q>, AllocError>
        ensures { IfOk result (λ d. d ≡ record
            { held = held; closed = false; echoes = replicate (length L.start.peers) None }) }
    {
        let count = held.switch_count();
        let echoes = no_echoes(alloc, count)?;
        Ok(Drive {
            held,
            closed: false,
            echoes,
        })
    }

    /// The coordinator.
    pub fn coordinator(&self) -> &Coordinator
        ensures is { result.now ≡ self.now.held.control }
        ensures count { length result.now.peers ≡ length L.start.peers }
    {
        self.held.coordinator()
    }

    /// How many messages of the switch at a place were heard.
    pub fn told(&self, place: usize) -> usize
        requires { place < length L.start.peers }
        ensures { result ≡ told_before place self.now.held.journal }
    {
        self.held.told(place)
    }

    /// How many switches there are.
    pub fn switch_count(&self) -> usize
        ensures here { result ≡ length self.now.held.control.peers }
        ensures start { result ≡ length L.start.peers }
    {
        self.held.switch_count()
    }

    /// Sends the next message to the switch at a place. A copy of it is given, unless memory
    /// runs out after the message was noted.
    pub fn send(&mut self, alloc: Global, place: usize) -> Result<Option<Message>, Rejection<()>>
        requires { place < length L.start.peers }
        ensures sent { IfOk result (λ copy. Sends place copy self.old.held self.new.held × IsBeside self.old self.new) }
        ensures refused { IfErr result (Refuses (¬ MaySend place self.old.held.control)) }
        ensures err { OnErr result (self.new ≡ self.old) }
    {
        self.held.send(alloc, place)
    }

    /// Does what came over an end.
    pub fn cut(&mut self, event: Steering, end: E) -> Result<Option<E>, Rejection<E>>
        requires place { IsAmong (length L.start.peers) event }
        requires met { MetBy E.named E.faults E.received self.old.held.journal event end }
        requires fits { IsWritable event }
        ensures step { OnOk result (Steers self.old.held.control event self.new.held.control) }
        ensures refused { IfErr result (Refuses (self.old.held.control.halt ≢ None)) }
        ensures journal { OnOk result (self.new.held.journal ≡ self.old.held.journal ++ event ∷ []) }
        ensures kept { IfOk result (KeepsEnd end self.old.held.ends self.new.held) }
        ensures halts { IfOk result (λ back. Halts event → back ≡ None) }
        ensures receipts { OnOk result (self.new.held.receipts ≡ self.old.held.receipts) }
        ensures beside { OnOk result (IsBeside self.old self.new) }
        ensures err { OnErr result (self.new ≡ self.old) }
        ensures back { IfErr result (HandsBack end) }
    {
        self.held.cut(event, end)
    }

    /// Takes the report of a drain, and keeps it.
    pub fn drained(&mut self, receipt: Q) -> Result<(), Rejection<Q>>
        ensures step { OnOk result
            (Steers self.old.held.control (steering.Drained (Q.stamped receipt)) self.new.held.control) }
        ensures refused { IfErr result (Refuses (drain_refusal self.old.held.control (Q.stamped receipt) ≢ None)) }
        ensures receipts { OnOk result (self.new.held.receipts ≡ self.old.held.receipts ++ receipt ∷ []) }
        ensures err { OnErr result (self.new ≡ self.old) }
        ensures back { IfErr result (HandsBack receipt) }
    {
        self.held.drained(receipt)
    }

    /// Whether the worker of the switch at a place is to stop.
    pub fn stops(&self, place: usize) -> bool
        requires { place < length L.start.peers }
        ensures { IsTrue result ↔ Stops self.now place }
    {
        self.closed
            || self.coordinator().halt().is_some()
            || (is_last(self.coordinator())
                && !self.has_echo(place)
                && !self.coordinator().may_send(place))
    }

    /// Makes every worker stop: out of memory, or out of threads.
    pub fn close(&mut self)
        ensures { self.new ≡ record self.old { closed = true } }
    {
        self.closed = true;
    }

    /// Whether it was closed.
    pub fn is_closed(&self) -> bool
        ensures { result ≡ self.now.closed }
    {
        self.closed
    }

    /// The journal with all that was kept.
    pub fn finish(self) -> DriveState<L, E, Q>
        ensures { result ≡ self.held }
    {
        let Drive {
            held,
            closed: _closed,
            echoes: _echoes,
        } = self;
        held
    }
}
