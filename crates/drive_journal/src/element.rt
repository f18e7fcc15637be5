//! What the bytes of a stream are that come next in it.
//!
//! Layer: switches outside; public. Called by `calls`.
ghost use Rattle.std.specs.Prelude.{ℕ, List, Option};
ghost use Rattle.openflow_wire.specs.Writing.{Fits};
ghost use Rattle.worker_desk.specs.Streams.{TellsWhereKnown};
ghost use Rattle.drive_journal.specs.Calls.{IsElement, IsNextElement};
ghost use Rattle.drive_journal.specs.Elements.{IsFitting};

use of_framing::first_element;
use openflow_wire::{Message as Whole, WireError, WireFault};
use std::alloc::Global;

/// The next element of a stream (OpenFlow 1.0.0, section 5.1).
#[derive(Drop)]
pub enum Element {
    Message(Whole),
    Fault(WireFault),
    /// Less than a message.
    Rest,
    /// Out of memory.
    Memory,
}

/// Which element of a stream these bytes are.
pub(crate) fn read_element(alloc: Global, bytes: &[u8]) -> Element
    ensures is { IsElement bytes.now result }
    ensures fits { IsFitting result }
    ensures next { (k : ℕ) (received : Option (List ℕ)) → TellsWhereKnown received k bytes.now →
        IsNextElement k received result }
{
    match first_element(alloc, bytes) {
        None => Element::Rest,
        Some(Ok(message)) => Element::Message(message),
        Some(Err(WireError::Fault(fault))) => Element::Fault(fault),
        Some(Err(WireError::Memory)) => Element::Memory,
    }
}
