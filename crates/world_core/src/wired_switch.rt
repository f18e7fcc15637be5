//! One switch with its channels.
//!
//! Layer: the world; private. Called by many modules. Clauses of world_journal name it.
ghost use Rattle.std.specs.Prelude.{◌≡◌, ◌<◌, ◌≢◌, ◌↔◌, All, None, [], length, IsTrue, IfOk};
ghost use Rattle.openflow_wire.specs.Writing.{Fits};

use openflow_wire::Message;
use std::alloc::{AllocError, Global};
use std::collections::VecDeque;
use std::marker::Model;
use switch_model::Switch;

mod sides;
mod steps;

/// A switch, and the channels to it and from it. Each message in them can be written.
#[derive(Drop)]
pub(crate) struct WiredSwitch {
    there: VecDeque<Message>,
    back: VecDeque<Message>,
    switch: Switch,
}

impl Model for WiredSwitch {
    ghost use Rattle.std.specs.Prelude.{All};
    ghost use Rattle.openflow_wire.specs.Writing.{Fits};
    ghost use Rattle.update_laws.specs.Fleets as fleets;

    ghost Value = { fleets.WiredSwitch };

    ghost view = { λ e. record { there = e.there.items; back = e.back.items; switch = e.switch } };

    ghost invariant = { λ e. All Fits e.there.items × All Fits e.back.items };
}

impl WiredSwitch {
    ghost use Rattle.openflow_wire.specs.declared.message.Message.TheVariants as to;
    ghost use Rattle.world_core.specs.Ends.{new_end, channel};

    /// A switch with this number and an empty table for `capacity` rows, whose HELLO is on its way.
    pub(crate) fn new(alloc: Global, sw: u16, capacity: usize) -> Result<WiredSwitch, AllocError>
        ensures { IfOk result (λ e. e ≡ new_end capacity sw) }
    {
        let mut back = VecDeque::new(alloc);
        back.push_back(Message::Hello { version: 1, xid: 0 })?;
        Ok(WiredSwitch {
            there: VecDeque::new(alloc),
            back,
            switch: Switch::new(alloc, sw, capacity),
        })
    }

    /// The switch.
    pub(crate) fn switch(&self) -> &Switch
        ensures { result.now ≡ self.now.switch }
    {
        &self.switch
    }

    /// The channel to the switch.
    pub(crate) fn there(&self) -> &VecDeque<Message>
        ensures { result.now.items ≡ self.now.there }
    {
        &self.there
    }

    /// The channel from the switch.
    pub(crate) fn back(&self) -> &VecDeque<Message>
        ensures { result.now.items ≡ self.now.back }
    {
        &self.back
    }

    /// Whether the switch can take the front of its channel.
    pub(crate) fn may_take(&self) -> bool
        ensures { IsTrue result ↔ ((self.now.there ≢ []) × (self.now.switch.awaited ≡ None)) }
    {
        !self.there.is_empty() && !self.switch.awaits()
    }

    /// Whether a flow mod is pending at a place.
    pub(crate) fn may_apply(&self, place: usize) -> bool
        ensures { IsTrue result ↔ (place < length self.now.switch.pending) }
    {
        place < self.switch.pending()
    }

    /// Whether the switch can answer its barrier.
    pub(crate) fn may_reply(&self) -> bool
        ensures { IsTrue result ↔ ((self.now.switch.awaited ≢ None) × (self.now.switch.pending ≡ [])) }
    {
        self.switch.awaits() && self.switch.pending() == 0
    }

    /// Whether nothing is on its way from the switch.
    pub(crate) fn is_silent(&self) -> bool
        ensures { IsTrue result ↔ (self.now.back ≡ []) }
    {
        self.back.is_empty()
    }

    /// Whether the switch has nothing to take, to apply or to answer.
    pub(crate) fn is_idle(&self) -> bool
        ensures { IsTrue result ↔
            ((self.now.there ≡ []) × (self.now.switch.pending ≡ []) × (self.now.switch.awaited ≡ None)) }
    {
        self.there.is_empty() && self.switch.pending() == 0 && !self.switch.awaits()
    }

    /// Whether something is on its way from the switch.
    pub(crate) fn may_be_heard(&self) -> bool
        ensures { IsTrue result ↔ (self.now.back ≢ []) }
    {
        !self.back.is_empty()
    }
}
