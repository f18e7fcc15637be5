//! What stands on the channels of one switch.
//!
//! Layer: the world; private. Adds calls to `WiredSwitch`.
ghost use Rattle.std.specs.Prelude.{◌≡◌, ◌<◌, ◌↔◌, All, None, length, option_map, IsTrue, IfOk, IfSome};
ghost use Rattle.openflow_wire.specs.Writing.{Fits};

use super::WiredSwitch;
use bytes::BytesMut;
use openflow_wire::{Message, Octets, encode, spells};
use std::alloc::{AllocError, Global};
use std::collections::VecDeque;
use switch_model::Switch;
use update_coordinator::{Cause, Side};

impl WiredSwitch {
    ghost use Rattle.update_coordinator.specs.declared.cause.Cause.TheVariants as cause;
    ghost use Rattle.world_core.specs.Channels.{output, last_of};
    ghost use Rattle.world_core.specs.Ends.{channel, IsFront, front_bytes};

    /// Whether these bytes are the front of the channel that ends at a side.
    pub(crate) fn is_front(&self, side: Side, bytes: &[u8]) -> bool
        ensures { IsTrue result ↔ IsFront bytes.now (channel side self.now) }
    {
        match self.channel(side).front() {
            Some(message) => spells(bytes, message),
            None => false,
        }
    }

    /// Why updates are halted if these bytes came at a side of this switch's channels.
    pub(crate) fn foreign_cause(
        &self,
        alloc: Global,
        sw: u16,
        side: Side,
        got: &Octets,
    ) -> Result<Cause, AllocError>
        ensures { IfOk result (λ why. why ≡ cause.Foreign sw side (front_bytes (channel side self.now)) got.now) }
    {
        Ok(Cause::Foreign {
            sw,
            side,
            expected: self.front_bytes(alloc, side)?,
            got: got.copy(alloc)?,
        })
    }

    // The front of the channel that ends at a side, as bytes, if there is one.
    pub(super) fn front_bytes(
        &self,
        alloc: Global,
        side: Side,
    ) -> Result<Option<Octets>, AllocError>
        ensures { IfOk result (λ b. b ≡ front_bytes (channel side self.now)) }
    {
        let Some(message) = self.channel(side).front() else {
            return Ok(None);
        };
        let mut bytes = BytesMut::new(alloc);
        encode(message, &mut bytes)?;
        Ok(Some(Octets::from_slice(alloc, &bytes)?))
    }

    /// How many messages are on the channel that begins at a side.
    pub(crate) fn sent_count(&self, side: Side) -> usize
        ensures { result ≡ length (output side self.now) }
    {
        self.output(side).len()
    }

    /// The last of them, which can be written.
    pub(crate) fn newest(&self, side: Side) -> Option<&Message>
        ensures is { option_map (λ m. m.now) result ≡ last_of (output side self.now) }
        ensures fits { IfSome result (λ m. Fits m.now) }
    {
        let output = self.output(side);
        output.get(output.len().saturating_sub(1))
    }

    // The channel that begins at a side.
    pub(super) fn output(&self, side: Side) -> &VecDeque<Message>
        ensures items { result.now.items ≡ output side self.now }
        ensures fits { All Fits result.now.items }
    {
        match side {
            Side::Controller => &self.there,
            Side::Switch => &self.back,
        }
    }

    // The channel that ends at a side.
    pub(super) fn channel(&self, side: Side) -> &VecDeque<Message>
        ensures items { result.now.items ≡ channel side self.now }
        ensures fits { All Fits result.now.items }
    {
        match side {
            Side::Controller => &self.back,
            Side::Switch => &self.there,
        }
    }
}
