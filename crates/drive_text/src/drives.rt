//! The texts of drives.
//!
//! Layer: switches outside; public. Called by drive_command.
ghost use Rattle.std.specs.Prelude.{◌≡◌, ◌++◌, OnOk, IfOk, option_map, string_bytes, codes};
ghost use Rattle.openflow_wire.specs.Writing.{Fits};
ghost use Rattle.drive_journal.specs.Journals.{AreWritable, IsWritable};
ghost use Rattle.drive_text.specs.Drives.{drive_text, message_text, steering_line, steering_text, steerings_text};

use bytes::BytesMut;
use drive_journal::Steering;
use event_words::EventWord;
use openflow_wire::{Message, encode};
use report_text::{UpdateState, fault_number, put_bytes, put_named, put_numbered, put_state};
use std::alloc::{AllocError, Global};
use std::fmt::Write;
use topology_model::DeclaredSwitch;
use update_coordinator::{Cause, Phase};
use value_text::Text;

/// The events of a drive, in order, a line each, and then the phase and why the updates are halted, if they are. A
/// message is told as its bytes (OpenFlow 1.0.0, section 5), two hexadecimal digits each. Switches go by their numbers,
/// which `switches` has in the order of their places.
pub fn drive_text(
    alloc: Global,
    switches: &[DeclaredSwitch],
    journal: &[Steering],
    phase: Phase,
    halt: Option<&Cause>,
) -> Result<Text, AllocError>
    requires { AreWritable journal.now }
    ensures { IfOk result (λ t. t ≡ drive_text switches.now journal.now phase (option_map (λ c. c.now) halt.entry)) }
{
    let mut out = String::new(alloc);
    put_journal(alloc, &mut out, switches, journal)?;
    // No drains overlap in a drive.
    let state = UpdateState {
        phase,
        stamps: &[],
        draining: &[],
        halt,
    };
    put_state(alloc, &mut out, state)?;
    Ok(Text::new(out))
}

// Puts the lines of events at the end.
fn put_journal(
    alloc: Global,
    out: &mut String,
    switches: &[DeclaredSwitch],
    journal: &[Steering],
) -> Result<(), AllocError>
    requires { AreWritable journal.now }
    ensures { OnOk result (string_bytes out.new ≡ string_bytes out.old ++ steerings_text switches.now journal.now) }
{
    for event in journal {
        put_line(alloc, out, switches, event)?;
    }
    Ok(())
}

// Puts the line of an event at the end.
fn put_line(
    alloc: Global,
    out: &mut String,
    switches: &[DeclaredSwitch],
    event: &Steering,
) -> Result<(), AllocError>
    requires { IsWritable event.now }
    ensures { OnOk result (string_bytes out.new ≡ string_bytes out.old ++ steering_line switches.now event.now) }
{
    put_event(alloc, out, switches, event)?;
    out.push_str("\n")
}

// Puts the line of an event at the end, without its end.
fn put_event(
    alloc: Global,
    out: &mut String,
    switches: &[DeclaredSwitch],
    event: &Steering,
) -> Result<(), AllocError>
    requires { IsWritable event.now }
    ensures { OnOk result (string_bytes out.new ≡ string_bytes out.old ++
        (codes "e " ++ steering_text switches.now event.now)) }
{
    match event {
        Steering::Begin => out.push_str("e begin"),
        Steering::Send(place, message) => {
            put_named(out, EventWord::Send, switches, *place)?;
            put_message(alloc, out, message)
        }
        Steering::Heard(place, message) => {
            put_named(out, EventWord::Heard, switches, *place)?;
            put_message(alloc, out, message)
        }
        Steering::Drained(stamp) => put_numbered(out, EventWord::Drained, usize::from(*stamp)),
        Steering::Lost(place) => put_named(out, EventWord::Lost, switches, *place),
        Steering::Garbled(place, fault) => {
            put_named(out, EventWord::Garbled, switches, *place)?;
            let number = fault_number(*fault);
            write!(out, " {number}")
        }
    }
}

// Puts a blank and the bytes of a message at the end.
fn put_message(alloc: Global, out: &mut String, message: &Message) -> Result<(), AllocError>
    requires { Fits message.now }
    ensures { OnOk result (string_bytes out.new ≡ string_bytes out.old ++ message_text message.now) }
{
    let mut bytes = BytesMut::new(alloc);
    encode(message, &mut bytes)?;
    out.push_str(" ")?;
    put_bytes(out, bytes.as_slice())
}
