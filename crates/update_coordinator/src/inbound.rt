//! What the messages of a switch do, and the loss and the return of its session.
//!
//! Layer: updates; private. Adds calls to `Coordinator`.
ghost use Rattle.std.specs.Prelude.{IsTrue, ◌↔◌, ◌≡◌, ◌<◌, ◌≢◌, None, IfErr, IfOk, OnOk, OnErr, length};

use crate::batch::{begin_again, begin_all};
use crate::cause::Cause;
use crate::coordinator::Coordinator;
use crate::peers::{begin_phases, come_back, hear, lose};
use crate::phase::Phase;
use crate::refusal::Refusal;
use barrier_tracker::ReplyKind;
use openflow_wire::{Message, WireFault};
use session_core::Move;

impl Coordinator {
    ghost use Rattle.update_coordinator.specs.Calls.{IsRefusedAway, IsRefusedPresent};
    ghost use Rattle.update_coordinator.specs.Controls.{halted, in_phase};
    ghost use Rattle.update_coordinator.specs.Counts.{IsCounted};
    ghost use Rattle.update_coordinator.specs.Kept.{Suits};
    ghost use Rattle.update_coordinator.specs.Phases.{swept_after};
    ghost use Rattle.update_coordinator.specs.Sending.{HasGreeted};
    ghost use Rattle.update_coordinator.specs.Hearing.{IsHeard, IsAnswered, IsLost, IsGarbled, IsBack, IsAway};
    ghost use Rattle.update_coordinator.specs.Hearing.{IsSentAway, due};

    /// Takes a message of the switch at a place.
    pub fn heard(&mut self, place: usize, message: &Message) -> Result<Move, Refusal>
        requires { place < length self.old.peers }
        ensures ok { IfOk result (IsHeard place message.now self.old self.new) }
        ensures refused { IfErr result (IsRefusedAway place self.old) }
        ensures err { OnErr result (self.new ≡ self.old) }
    {
        if self.halt.is_some() {
            return Err(Refusal::Halted);
        }
        if self.peers[place].is_away() {
            return Err(Refusal::Away);
        }
        let sw = self.peers[place].sw();
        let due = self.is_due(place);
        let answer = hear(&mut self.peers, place, message, due);
        begin_again(&mut self.cursors, place, self.spans[place], &answer, due);
        match answer {
            Move::Barrier(xid) => self.answered(place, xid),
            Move::Failed(fault) => self.stand(Cause::Failed(sw, fault)),
            Move::Greeted | Move::Up | Move::Echo | Move::Ignored => {}
        }
        Ok(answer)
    }

    /// Whether the switch at a place has greeted.
    pub fn has_greeted(&self, place: usize) -> bool
        requires { place < length self.now.peers }
        ensures { IsTrue result ↔ HasGreeted place self.now }
    {
        self.peers[place].has_greeted()
    }

    /// Whether the session with the switch at a place is lost.
    pub fn away(&self, place: usize) -> bool
        requires { place < length self.now.peers }
        ensures { IsTrue result ↔ IsAway place self.now }
    {
        self.peers[place].is_away()
    }

    /// Takes the news that the session with the switch at a place is lost. If no more may be lost, the updates
    /// are halted.
    pub fn lost(&mut self, place: usize) -> Result<(), Refusal>
        requires { place < length self.old.peers }
        ensures ok { OnOk result (IsLost place self.old self.new) }
        ensures refused { IfErr result (IsRefusedAway place self.old) }
        ensures err { OnErr result (self.new ≡ self.old) }
    {
        if self.halt.is_some() {
            return Err(Refusal::Halted);
        }
        if self.peers[place].is_away() {
            return Err(Refusal::Away);
        }
        if self.rejoins == 0 {
            let sw = self.peers[place].sw();
            self.stand(Cause::Lost(sw));
        } else {
            self.lose(place);
        }
        Ok(())
    }

    /// Takes the news that the stream of the switch at a place has a fault.
    pub fn garbled(&mut self, place: usize, fault: WireFault) -> Result<(), Refusal>
        requires { place < length self.old.peers }
        ensures ok { OnOk result (IsGarbled place fault self.old self.new) }
        ensures refused { IfErr result (λ r. (r ≡ Refusal.Halted) × (self.old.halt ≢ None)) }
        ensures err { OnErr result (self.new ≡ self.old) }
    {
        if self.halt.is_some() {
            return Err(Refusal::Halted);
        }
        let sw = self.peers[place].sw();
        self.stand(Cause::Garbled(sw, fault));
        Ok(())
    }

    /// Takes the news that the switch at a place is there again.
    pub fn rejoin(&mut self, place: usize) -> Result<(), Refusal>
        requires { place < length self.old.peers }
        ensures ok { OnOk result (IsBack place self.old self.new) }
        ensures refused { IfErr result (IsRefusedPresent place self.old) }
        ensures err { OnErr result (self.new ≡ self.old) }
    {
        if self.halt.is_some() {
            return Err(Refusal::Halted);
        }
        if !self.peers[place].is_away() {
            return Err(Refusal::NotAway);
        }
        come_back(&mut self.peers, place);
        Ok(())
    }

    /// Halts the updates.
    pub fn stop(&mut self, cause: Cause) -> Result<(), Refusal>
        ensures ok { OnOk result ((self.old.halt ≡ None) × (self.new ≡ halted cause self.old)) }
        ensures refused { IfErr result (λ r. (r ≡ Refusal.Halted) × (self.old.halt ≢ None)) }
        ensures err { OnErr result (self.new ≡ self.old) }
    {
        if self.halt.is_some() {
            return Err(Refusal::Halted);
        }
        self.stand(cause);
        Ok(())
    }

    // Whether the switch at a place was not heard for the batch of this phase.
    fn is_due(&self, place: usize) -> bool
        requires { place < length self.now.peers }
        ensures { result ≡ due place self.now }
    {
        self.phase.works() && !self.replies.is_heard(place)
    }

    // The session with the switch at a place is lost, and the updates go on.
    fn lose(&mut self, place: usize)
        requires within { place < length self.old.peers }
        requires some { 0 < self.old.rejoins }
        ensures { IsSentAway place self.old self.new }
    {
        lose(&mut self.peers, place);
        self.replies.forget(place);
        self.rejoins -= 1;
    }

    // Takes a barrier's reply.
    fn answered(&mut self, place: usize, xid: u32)
        requires { place < length self.old.peers }
        ensures { IsAnswered place xid self.old self.new }
    {
        match self.replies.heard(place, xid) {
            ReplyKind::Last => {
                let phase = self.phase.acknowledged(self.overlap, &self.rounds);
                self.enter(phase);
            }
            ReplyKind::More => {}
            ReplyKind::Stray => {}
        }
    }

    // Halts the updates, which may be halted already.
    pub(crate) fn stand(&mut self, cause: Cause)
        ensures { self.new ≡ halted cause self.old }
    {
        self.halt = Some(cause);
    }

    // A phase begins.
    pub(crate) fn enter(&mut self, phase: Phase)
        requires counted { IsCounted phase self.old }
        requires suits { Suits self.old.overlap self.old.versions (swept_after self.old.phase self.old.swept) phase }
        ensures { self.new ≡ in_phase phase self.old }
    {
        self.replies.restart();
        self.swept = self.phase.swept_after(self.swept);
        self.phase = phase;
        begin_phases(&mut self.peers, phase.works());
        begin_all(&mut self.cursors, &self.spans);
    }
}
