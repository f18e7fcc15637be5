//! Why updates halted.
//!
//! Layer: the program; public. Called by `causes` here, and by drive_text.
ghost use Rattle.std.specs.Prelude.{◌≡◌, ◌++◌, ◌-◌, OnOk, option_map, string_bytes};
ghost use Rattle.value_text.specs.Values.{line};
ghost use Rattle.report_text.specs.Causes.{bytes_text, front_text, failure_text, fault_number, switch_cause};
ghost use Rattle.report_text.specs.Causes.{cause_text, halt_text};

use crate::events::side_text;
use openflow_wire::{Octets, WireFault};
use session_core::SessionFault;
use std::alloc::{AllocError, Global};
use update_coordinator::{Cause, Side};
use value_text::{put_hex_byte, put_history};

// Puts the line of the cause at the end, if there is one.
pub(super) fn put_halt(
    alloc: Global,
    out: &mut String,
    halt: Option<&Cause>,
) -> Result<(), AllocError>
    ensures { OnOk result (string_bytes out.new ≡ string_bytes out.old ++ halt_text
        (option_map (λ c. c.now) halt.entry)) }
{
    match halt {
        None => Ok(()),
        Some(cause) => {
            out.push_str("halted ")?;
            put_cause(alloc, out, cause)?;
            out.push_str("\n")
        }
    }
}

fn put_cause(alloc: Global, out: &mut String, cause: &Cause) -> Result<(), AllocError>
    ensures { OnOk result (string_bytes out.new ≡ string_bytes out.old ++ cause_text cause.now) }
{
    match cause {
        Cause::Lost(sw) => write!(out, "switch {sw} lost"),
        Cause::Failed(sw, fault) => put_failure(out, *sw, *fault),
        Cause::Garbled(sw, fault) => {
            let number = fault_number(*fault);
            write!(out, "switch {sw} garbled {number}")
        }
        Cause::Foreign {
            sw,
            side,
            expected,
            got,
        } => put_foreign(out, *sw, *side, expected, got),
        Cause::Undrained(history) => {
            out.push_str("undrained ")?;
            put_history(alloc, out, history)
        }
    }
}

// Puts why the session with a switch failed at the end.
fn put_failure(out: &mut String, sw: u16, fault: SessionFault) -> Result<(), AllocError>
    ensures { OnOk result (string_bytes out.new ≡ string_bytes out.old ++ switch_cause sw (failure_text fault)) }
{
    match fault {
        SessionFault::Incompatible => write!(out, "switch {sw} incompatible"),
        SessionFault::WrongSwitch { expected, got } => {
            write!(out, "switch {sw} identity {expected} {got}")
        }
        SessionFault::SwitchError { form, code } => write!(out, "switch {sw} error {form} {code}"),
    }
}

/// The number of a fault of bytes that are no message.
pub fn fault_number(fault: WireFault) -> u32
    ensures { result ≡ fault_number fault }
{
    match fault {
        WireFault::BadVersion => 1,
        WireFault::BadLength => 2,
        WireFault::BadAction => 3,
        WireFault::BadCommand => 4,
    }
}

// Puts at the end which bytes came to a side of a switch's channel, and which were due.
fn put_foreign(
    out: &mut String,
    sw: u16,
    side: Side,
    expected: &Option<Octets>,
    got: &Octets,
) -> Result<(), AllocError>
    ensures { OnOk result (string_bytes out.new ≡ string_bytes out.old ++ cause_text
        (Cause.Foreign sw side expected.now got.now)) }
{
    let receiver = side_text(side);
    write!(out, "switch {sw} foreign {receiver} ")?;
    put_front(out, expected)?;
    out.push_str(" ")?;
    put_bytes(out, got.as_slice())
}

// Puts the front of a channel at the end, or `none`.
fn put_front(out: &mut String, front: &Option<Octets>) -> Result<(), AllocError>
    ensures { OnOk result (string_bytes out.new ≡ string_bytes out.old ++ front_text front.now) }
{
    match front {
        None => out.push_str("none"),
        Some(bytes) => put_bytes(out, bytes.as_slice()),
    }
}

/// Puts bytes at the end, two hexadecimal digits each.
pub fn put_bytes(out: &mut String, bytes: &[u8]) -> Result<(), AllocError>
    ensures { OnOk result (string_bytes out.new ≡ string_bytes out.old ++ bytes_text bytes.now) }
{
    for byte in bytes {
        put_hex_byte(out, u64::from(*byte))?;
    }
    Ok(())
}
