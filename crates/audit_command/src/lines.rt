//! The lines of audits.
//!
//! Layer: the program; public. Called by `audit`.
ghost use Rattle.std.specs.Prelude.{◌≡◌, ◌++◌, OnOk, string_bytes};
ghost use Rattle.audit_command.specs.Lines.{audit_line, switch_text, verdict_text};

use flow_audit::Verdict;
use std::alloc::AllocError;
use std::fmt::Write;
use value_text::put_row;

/// Puts the line of an audit at the end: the switch, and the row at which its table differs from the planned rows, or
/// that there is none.
pub fn put_audit(out: &mut String, sw: u16, verdict: &Verdict) -> Result<(), AllocError>
    ensures { OnOk result (string_bytes out.new ≡ string_bytes out.old ++ audit_line sw verdict.now) }
{
    put_switch(out, sw)?;
    put_verdict(out, verdict)
}

// Puts the switch at the end.
fn put_switch(out: &mut String, sw: u16) -> Result<(), AllocError>
    ensures { OnOk result (string_bytes out.new ≡ string_bytes out.old ++ switch_text sw) }
{
    write!(out, "audit switch {sw} ")
}

fn put_verdict(out: &mut String, verdict: &Verdict) -> Result<(), AllocError>
    ensures { OnOk result (string_bytes out.new ≡ string_bytes out.old ++ verdict_text verdict.now) }
{
    match verdict {
        Verdict::Same => out.push_str("same\n"),
        Verdict::Missing(row) => {
            out.push_str("missing ")?;
            put_row(out, row)
        }
        Verdict::Surplus(row) => {
            out.push_str("surplus ")?;
            put_row(out, row)
        }
        Verdict::Actions { reported, .. } => {
            out.push_str("actions ")?;
            put_row(out, reported)
        }
    }
}
