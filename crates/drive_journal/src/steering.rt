//! Events of the controller alone.
//!
//! Layer: switches outside; public. Called by many modules here, and by drive_command, drive_text and drive_workers.
//! Clauses of drive_laws name it.
use openflow_wire::{Message, WireFault};

/// One event of the controller, with what it sent or heard. Switches go by their places, from 0.
#[derive(Drop)]
pub enum Steering {
    /// The next update begins.
    Begin,
    /// This message went to this switch.
    Send(usize, Message),
    /// This message of this switch was heard.
    Heard(usize, Message),
    /// No packet carries this stamp any more: 1 to 4094.
    Drained(u16),
    /// The session with this switch is lost.
    Lost(usize),
    /// The stream of this switch has a fault (OpenFlow 1.0.0, section 5.1).
    Garbled(usize, WireFault),
}
