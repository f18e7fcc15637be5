//! Audits of tables.
//!
//! Layer: updates; public. Called by audit_cases and table_audit.
ghost use Rattle.std.specs.Prelude.{IfOk, IfErr, OnOk};
ghost use Rattle.nk_values.specs.Tables.{Distinct};
ghost use Rattle.flow_audit.specs.Reports.{all_rows};
ghost use Rattle.flow_audit.specs.Verdicts.{IsVerdict, IsReported, IsRefusal};

use crate::comparing::compared;
use crate::ranking::repeated;
use crate::replies::{are_reports, are_whole, copies, reported};
use crate::verdict::{AuditError, AuditFault, Verdict};
use nk_values::Row;
use openflow_wire::{Message, rank};
use std::alloc::Global;

/// How the rows that messages report differ from the planned ones, at the least key where they do, in the order in
/// which switches tell them; or why the messages are no report. Planned rows have keys of their own.
pub fn audit(alloc: Global, planned: &[Row], messages: &[Message]) -> Result<Verdict, AuditError>
    requires { Distinct planned.now }
    ensures verdict { IfOk result (IsVerdict planned.now (all_rows messages.now)) }
    // There is a verdict only of messages without a fault, and a fault only where it is the first.
    ensures reported { OnOk result (IsReported messages.now) }
    ensures refused { IfErr result (IsRefusal messages.now) }
{
    if !are_reports(messages) {
        return Err(AuditError::Fault(AuditFault::NotFlows));
    }
    if !are_whole(messages) {
        return Err(AuditError::Fault(AuditFault::Unfinished));
    }
    let mut rows = reported(alloc, messages)?;
    rank(&mut rows)?;
    if let Some(place) = repeated(&rows) {
        let row = rows.swap_remove(place);
        return Err(AuditError::Fault(AuditFault::Twice { row }));
    }
    let mut plan = copies(alloc, planned)?;
    rank(&mut plan)?;
    Ok(compared(alloc, &plan, &rows)?)
}
