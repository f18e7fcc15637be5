//! The texts of faults.
//!
//! Layer: the program; public. Called by `equality` here, and by report_text.
ghost use Rattle.std.specs.Prelude.{◌≡◌, ◌++◌, OnOk, IfOk, IfSome, IfNone, string_bytes};
ghost use Rattle.value_text.specs.Values.{line};
ghost use Rattle.value_text.specs.Faults.{label_behind, pair_text, shown, compile_text, at_port, place_of, both_text};
ghost use Rattle.value_text.specs.Faults.{emit_text, policy_text, fault_text, HasValues};

use crate::fault::Fault;
use crate::text::Text;
use crate::values::put_packet;
use nk_values::{CompileFault, EmitFault, FieldSet, Packet, TextFault};
use std::alloc::{AllocError, Global};
use std::fmt::Write;

/// The line of a source that failed.
pub const READ_FAULT: &str = "nkctl: read fault\n";

/// The line of a pair of links that could not be made.
pub const NET_FAULT: &str = "nkctl: net fault\n";

/// The line of a thread that could not be started.
pub const NO_THREAD: &str = "nkctl: no thread\n";

/// The line of a reporter that failed.
pub const REPORT_FAULT: &str = "nkctl: report fault\n";

/// The line of words that are no command line.
pub const USAGE: &str = "usage: nkctl rules|trace|simulate|run|generate N\n";

/// The line of a fault that has no values to show. It takes no memory.
pub fn fixed_line(fault: &Fault) -> Option<&'static str>
    ensures line { IfSome result (λ text. text.now ≡ fault_text fault.now) }
    ensures none { IfNone result (HasValues fault.now) }
{
    match fault {
        Fault::Read => Some(READ_FAULT),
        Fault::Net => Some(NET_FAULT),
        Fault::NoThread => Some(NO_THREAD),
        Fault::Report => Some(REPORT_FAULT),
        Fault::Usage => Some(USAGE),
        Fault::Line { .. }
        | Fault::NotEnabled { .. }
        | Fault::NotTwo { .. }
        | Fault::Compile { .. }
        | Fault::Emit { .. } => None,
    }
}

/// The line of a fault: its place, its number and name, and the packets or copies that show it.
pub fn fault_text(alloc: Global, fault: &Fault) -> Result<Text, AllocError>
    ensures { IfOk result (λ t. t ≡ fault_text fault.now) }
{
    let mut out = String::new(alloc);
    put_fault(&mut out, fault)?;
    Ok(Text::new(out))
}

fn put_fault(out: &mut String, fault: &Fault) -> Result<(), AllocError>
    ensures { OnOk result (string_bytes out.new ≡ string_bytes out.old ++ fault_text fault.now) }
{
    match fault {
        Fault::Line {
            line,
            column,
            fault,
        } => put_line(out, *line, *column, *fault),
        Fault::NotEnabled { line } => put_not_enabled(out, *line),
        Fault::NotTwo { line } => put_not_two(out, *line),
        Fault::Compile { policy, fault } => {
            put_policy(out, *policy)?;
            put_compile(out, fault)?;
            out.push_str("\n")
        }
        Fault::Emit { policy, fault } => {
            put_policy(out, *policy)?;
            put_emit(out, fault)?;
            out.push_str("\n")
        }
        Fault::Read => out.push_str(READ_FAULT),
        Fault::Net => out.push_str(NET_FAULT),
        Fault::NoThread => out.push_str(NO_THREAD),
        Fault::Report => out.push_str(REPORT_FAULT),
        Fault::Usage => out.push_str(USAGE),
    }
}

// Puts the line of a fault of the document at the end.
fn put_line(out: &mut String, line: u64, column: u64, fault: TextFault) -> Result<(), AllocError>
    ensures { OnOk result (string_bytes out.new ≡ string_bytes out.old ++ fault_text (Fault.Line line column fault)) }
{
    write!(out, "nkctl: line {line} column {column}: {fault}\n")
}

// Puts the line of an event that cannot happen at the end.
fn put_not_enabled(out: &mut String, line: u64) -> Result<(), AllocError>
    ensures { OnOk result (string_bytes out.new ≡ string_bytes out.old ++ fault_text (Fault.NotEnabled line)) }
{
    write!(out, "nkctl: line {line} column 1: 40 NotEnabled\n")
}

// Puts the line of a document that has not two policies at the end.
fn put_not_two(out: &mut String, line: u64) -> Result<(), AllocError>
    ensures { OnOk result (string_bytes out.new ≡ string_bytes out.old ++ fault_text (Fault.NotTwo line)) }
{
    write!(out, "nkctl: line {line} column 1: 41 NotTwo\n")
}

fn put_policy(out: &mut String, policy: u64) -> Result<(), AllocError>
    ensures { OnOk result (string_bytes out.new ≡ string_bytes out.old ++ policy_text policy) }
{
    write!(out, "nkctl: policy {policy}")
}

// Puts why a policy is not compiled at the end.
fn put_compile(out: &mut String, fault: &CompileFault) -> Result<(), AllocError>
    ensures { OnOk result (string_bytes out.new ≡ string_bytes out.old ++ compile_text fault.now) }
{
    put_label(out, fault.number(), fault.name())?;
    put_shown(out, fault)
}

// Puts the packets that show it at the end, if there are any.
fn put_shown(out: &mut String, fault: &CompileFault) -> Result<(), AllocError>
    ensures { OnOk result (string_bytes out.new ≡ string_bytes out.old ++ shown fault.now) }
{
    match fault {
        CompileFault::Dup | CompileFault::SetsSwitch | CompileFault::SetsType => Ok(()),
        CompileFault::StarDeep { packet, output } => put_pair(out, packet, output),
        CompileFault::Unguarded { packet } => {
            out.push_str(" ")?;
            put_packet(out, packet)
        }
    }
}

/// Puts a packet and its output at the end.
pub fn put_pair(out: &mut String, packet: &Packet, output: &Packet) -> Result<(), AllocError>
    ensures { OnOk result (string_bytes out.new ≡ string_bytes out.old ++ pair_text packet.now output.now) }
{
    out.push_str(" ")?;
    put_packet(out, packet)?;
    out.push_str(" to ")?;
    put_packet(out, output)
}

// Puts a number and a name at the end, after a colon.
fn put_label(out: &mut String, number: u8, name: &str) -> Result<(), AllocError>
    ensures { OnOk result (string_bytes out.new ≡ string_bytes out.old ++ label_behind number name.now) }
{
    write!(out, ": {number} {name}")
}

// Puts why a policy has no rows at the end.
fn put_emit(out: &mut String, fault: &EmitFault) -> Result<(), AllocError>
    ensures { OnOk result (string_bytes out.new ≡ string_bytes out.old ++ emit_text fault.now) }
{
    put_place(out, fault)?;
    put_label(out, fault.number(), fault.name())?;
    match fault {
        EmitFault::Unordered { a, b, .. } => put_both(out, a, b),
        EmitFault::TooManyRows { .. }
        | EmitFault::TooManySwitchRows { .. }
        | EmitFault::TooManyActions { .. } => Ok(()),
    }
}

// Puts the place of a fault at the end: the switch, and the port if there is one.
fn put_place(out: &mut String, fault: &EmitFault) -> Result<(), AllocError>
    ensures { OnOk result (string_bytes out.new ≡ string_bytes out.old ++ place_of fault.now) }
{
    match fault {
        EmitFault::Unordered { sw, pt, .. }
        | EmitFault::TooManyRows { sw, pt }
        | EmitFault::TooManyActions { sw, pt } => put_at_port(out, *sw, *pt),
        EmitFault::TooManySwitchRows { sw } => write!(out, " switch {sw}"),
    }
}

fn put_at_port(out: &mut String, sw: u16, pt: u16) -> Result<(), AllocError>
    ensures { OnOk result (string_bytes out.new ≡ string_bytes out.old ++ at_port sw pt) }
{
    write!(out, " switch {sw} port {pt}")
}

// Puts two copies at the end, each with the field that it sets.
fn put_both(out: &mut String, a: &FieldSet, b: &FieldSet) -> Result<(), AllocError>
    ensures { OnOk result (string_bytes out.new ≡ string_bytes out.old ++ both_text a.now b.now) }
{
    let (out_a, field_a) = (a.out, a.field);
    let (out_b, field_b) = (b.out, b.field);
    write!(
        out,
        " out {out_a} sets {field_a}, out {out_b} sets {field_b}"
    )
}
