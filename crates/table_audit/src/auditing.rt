//! The audit of a switch.
//!
//! Layer: the world; public. Called by audit_command.
ghost use Rattle.std.specs.Prelude.{◌<◌, IfOk, length};
ghost use Rattle.nk_values.specs.Tables.{Distinct};
ghost use Rattle.flow_audit.specs.Reports.{all_rows};
ghost use Rattle.flow_audit.specs.Verdicts.{IsReported, IsVerdict};
ghost use Rattle.table_audit.specs.Audits.{IsAuditAt};

use crate::report::row_report;
use flow_audit::{AuditError, Verdict, audit};
use nk_values::Row;
use openflow_wire::Message;
use std::alloc::{AllocError, Global};
use world_core::World;

/// How the table of the switch at a place differs from the rows that it holds once the batch of the phase is done. The
/// switch is asked for its rows by messages that go as bytes; nothing but memory can keep its answer from being a
/// report.
pub fn audit_switch(alloc: Global, world: &World, place: usize) -> Result<Verdict, AllocError>
    requires { place < length world.now.topology.switches }
    ensures { IfOk result (IsAuditAt world.now place) }
{
    world.kept();
    let sw = world.topology().switches()[place].sw;
    let report = row_report(alloc, world.switch(place))?;
    let planned = world.coordinator().planned(alloc, sw)?;
    verdict_on(alloc, &planned, &report)
}

// The verdict on messages that are a report.
fn verdict_on(alloc: Global, planned: &[Row], report: &[Message]) -> Result<Verdict, AllocError>
    requires distinct { Distinct planned.now }
    requires reported { IsReported report.now }
    ensures { IfOk result (IsVerdict planned.now (all_rows report.now)) }
{
    match audit(alloc, planned, report) {
        Ok(verdict) => Ok(verdict),
        Err(AuditError::Memory) => Err(AllocError),
        Err(AuditError::Fault(_)) => unreachable!(),
    }
}
