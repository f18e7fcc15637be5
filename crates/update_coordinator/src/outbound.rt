//! What goes to a switch, message by message.
//!
//! Layer: updates; private. Adds calls to `Coordinator`.
ghost use Rattle.std.specs.Prelude.{IsTrue, ◌↔◌, ◌≡◌, ◌<◌, None, Some, IfOk, OnErr, IfNone, IfSome, length, slice_get};

use crate::batch::{NextDraft, read_in};
use crate::coordinator::Coordinator;
use crate::peers::{self, fence, greet};
use nk_values::FlowMod;
use openflow_wire::Message;
use std::alloc::AllocError;
use update_plan::{Cursor, SwitchSpan};

impl Coordinator {
    ghost use Rattle.std.specs.Prelude.{false, true};
    ghost use Rattle.openflow_wire.specs.Writing.{Fits};
    ghost use Rattle.update_coordinator.specs.Controls.{Peer as PeerValue};
    ghost use Rattle.update_coordinator.specs.Drafts.{drafted};
    ghost use Rattle.update_coordinator.specs.Hearing.{IsAway};
    ghost use Rattle.update_coordinator.specs.Reading.{IsAtEnd, IsAtChange};
    ghost use Rattle.update_coordinator.specs.Sending.{IsSent, MaySend, Owes};
    ghost use Rattle.update_coordinator.specs.Peers.{in_batch};

    /// Whether something may go to the switch at a place.
    pub fn may_send(&self, place: usize) -> bool
        requires { place < length self.now.peers }
        ensures sent { IsTrue result ↔ MaySend place self.now }
        // Nothing goes to a switch that is away.
        ensures away { IsAway place self.now → ¬ (MaySend place self.now) }
    {
        self.halt.is_none() && self.peers[place].may_send()
    }

    /// Gives the next message to the switch at a place. After an `Err` all is as it was.
    pub fn next_out(&mut self, place: usize) -> Result<Option<Message>, AllocError>
        requires { place < length self.old.peers }
        ensures none { IfOk result (λ m. IfNone m (¬ (MaySend place self.old) × (self.new ≡ self.old))) }
        ensures some { IfOk result (λ m. IfSome m (IsSent place self.old self.new)) }
        ensures fits { IfOk result (λ m. IfSome m Fits) }
        ensures err { OnErr result (self.new ≡ self.old) }
    {
        if self.halt.is_some() {
            return Ok(None);
        }
        if !self.peers[place].is_in_batch() {
            return Ok(self.greet(place));
        }
        match self.read(place) {
            Some(NextDraft { draft, cursor }) => {
                let change = draft.make()?;
                Ok(Some(self.send_change(place, change, cursor)))
            }
            None => Ok(Some(self.send_fence(place))),
        }
    }

    /// Whether the switch at a place owes a reply: it was asked for its features or got a barrier.
    pub fn owes(&self, place: usize) -> bool
        requires { place < length self.now.peers }
        ensures owed { IsTrue result ↔ Owes place self.now }
        // A switch that is away owes nothing.
        ensures away { IsAway place self.now → ¬ (Owes place self.now) }
    {
        self.peers[place].is_asked() || self.replies.owes(place)
    }

    // HELLO or the request for the features goes to the switch at a place, where they come first.
    fn greet(&mut self, place: usize) -> Option<Message>
        requires within { place < length self.old.peers }
        requires running { self.old.halt ≡ None }
        requires turn { (s : PeerValue) → slice_get self.old.peers place ≡ Some s →
            in_batch s.greets s.asks s.sends ≡ false }
        ensures none { IfNone result (¬ (MaySend place self.old) × (self.new ≡ self.old)) }
        ensures some { IfSome result (IsSent place self.old self.new) }
        ensures fits { IfSome result Fits }
    {
        greet(&mut self.peers, place)
    }

    // The next flow mod of the batch of the switch at a place.
    fn read(&self, place: usize) -> Option<NextDraft<'_>>
        requires within { place < length self.now.peers }
        ensures none { IfNone result (IsAtEnd place self.now) }
        ensures some { IfSome result (λ x. IsAtChange place (drafted x.draft) x.cursor self.now) }
    {
        let peer = &self.peers[place];
        let switch = SwitchSpan {
            sw: peer.sw(),
            span: self.spans[place],
        };
        read_in(
            &self.versions,
            self.phase,
            switch,
            peer.next(),
            self.cursors[place],
        )
    }

    // A flow mod goes to the switch at a place.
    fn send_change(&mut self, place: usize, change: FlowMod, cursor: Cursor) -> Message
        requires within { place < length self.old.peers }
        requires running { self.old.halt ≡ None }
        requires turn { (s : PeerValue) → slice_get self.old.peers place ≡ Some s →
            in_batch s.greets s.asks s.sends ≡ true }
        requires change { IsAtChange place change cursor self.old }
        ensures sent { IsSent place self.old self.new result }
        ensures fits { Fits result }
    {
        let message = peers::change(&mut self.peers, place, change);
        self.cursors[place] = cursor;
        message
    }

    // The barrier of its batch goes to the switch at a place.
    fn send_fence(&mut self, place: usize) -> Message
        requires within { place < length self.old.peers }
        requires running { self.old.halt ≡ None }
        requires turn { (s : PeerValue) → slice_get self.old.peers place ≡ Some s →
            in_batch s.greets s.asks s.sends ≡ true }
        requires end { IsAtEnd place self.old }
        ensures sent { IsSent place self.old self.new result }
        ensures fits { Fits result }
    {
        let xid = fence(&mut self.peers, place);
        self.replies.expect(place, xid);
        Message::BarrierRequest { xid }
    }
}
