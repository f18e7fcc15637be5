//! Packets of events.
//!
//! Layer: the world; public. Called by `event` here, and by report_text.
ghost use Rattle.std.specs.Prelude.{◌≡◌, IfOk};

use nk_values::Packet;
use std::alloc::{AllocError, Global};
use std::marker::Model;

/// The packet of an event, in memory of its own: most events have none, and are small so. Clauses see the packet.
#[derive(Drop)]
pub struct BoxedPacket {
    packet: Box<Packet>,
}

impl Model for BoxedPacket {
    ghost use Rattle.nk_values.specs.declared.packet.Packet.{Packet};

    ghost Value = { Packet };

    ghost view = { λ b. b.packet.value };
}

impl BoxedPacket {
    /// This packet.
    pub fn new(alloc: Global, packet: Packet) -> Result<BoxedPacket, AllocError>
        ensures { IfOk result (λ b. b ≡ packet) }
    {
        Ok(BoxedPacket {
            packet: Box::new(alloc, packet)?,
        })
    }

    /// The packet.
    pub fn packet(&self) -> &Packet
        ensures { result.now ≡ self.now }
    {
        &self.packet
    }
}
