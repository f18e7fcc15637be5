//! What is sent to one switch, message by message.
//!
//! Layer: updates; private. Adds calls to `Peer`.
ghost use Rattle.std.specs.Prelude.{◌≡◌, ◌+◌, ◌<◌, ◌^◌, true, false, IfNone, IfSome};
ghost use Rattle.openflow_wire.specs.Writing.{Fits};
ghost use Rattle.update_coordinator.specs.Controls.{Change, Fence, message_of};

use super::Peer;
use nk_values::FlowMod;
use openflow_wire::Message;
use session_core::SessionState;

impl Peer {
    ghost use Rattle.update_coordinator.specs.Sending.{went};
    ghost use Rattle.update_coordinator.specs.Kept.{Known};
    ghost use Rattle.update_coordinator.specs.Peers.{in_batch, has_orders, GreetsBy};
    ghost use Rattle.session_core.specs.declared.session.SessionState.TheVariants as state;

    /// Whether the switch was asked for its features and did not tell them yet.
    pub fn is_asked(&self) -> bool
        ensures { result ≡ self.now.asked }
    {
        self.asked
    }

    /// Whether something is to be sent.
    pub fn may_send(&self) -> bool
        ensures { result ≡ has_orders self.now.greets self.now.asks self.now.sends }
    {
        self.greets || self.asks || self.sends
    }

    /// Whether the batch of the phase is what is to be sent next.
    pub fn is_in_batch(&self) -> bool
        ensures { result ≡ in_batch self.now.greets self.now.asks self.now.sends }
    {
        !self.greets && !self.asks && self.sends
    }

    /// Gives HELLO or the request for the features, with the next number, if they come first.
    pub fn greet(&mut self) -> Option<Message>
        requires small { self.old.sent + 1 < 2 ^ 32 }
        ensures none { IfNone result ((self.old.greets ≡ false) × (self.old.asks ≡ false) × (self.new ≡ self.old)) }
        ensures some { IfSome result (GreetsBy self.old self.new) }
        ensures fits { IfSome result Fits }
    {
        let xid = self.sent as u32 + 1;
        if self.greets {
            self.greets = false;
            self.sent += 1;
            return Some(Message::Hello { version: 1, xid });
        }
        if self.asks {
            self.asks = false;
            self.asked = true;
            self.sent += 1;
            return Some(Message::FeaturesRequest { xid });
        }
        None
    }

    /// Gives a flow mod of the batch, with the next number.
    pub fn change(&mut self, change: FlowMod) -> Message
        requires small { self.old.sent + 1 < 2 ^ 32 }
        requires short { self.old.next < 130000 }
        ensures message { result ≡ message_of (self.old.sent + 1) (Change change) }
        ensures went { self.new ≡ went (Change change) self.old }
    {
        let xid = self.sent as u32 + 1;
        self.next += 1;
        self.sent += 1;
        Message::FlowMod { xid, change }
    }

    /// Gives the number of the barrier that ends the batch.
    pub fn fence(&mut self) -> u32
        requires small { self.old.sent + 1 < 2 ^ 32 }
        requires sends { self.old.sends ≡ true }
        ensures known { Known self.old.session.state }
        ensures xid { result ≡ self.old.sent + 1 }
        ensures went { self.new ≡ went Fence self.old }
    {
        let xid = self.sent as u32 + 1;
        self.sends = false;
        self.sent += 1;
        xid
    }
}
