//! Which rows of a switch a batch adds or deletes, and in which round.
//!
//! Layer: updates; public. Called by `planning` here, and by update_coordinator.
ghost use Rattle.std.specs.Prelude.{◌≡◌, ◌≤◌, ◌<◌, Some, map, ◌++◌, OnOk, IfOk, option_map, option_to_list};
ghost use Rattle.openflow_wire.specs.RowChanges.{mod_of};
ghost use Rattle.update_plan.specs.Batches.{by_rounds, at_once, row_in, bulk, round_rows, ports_at};

use super::bulk;
use crate::batch::Batch;
use nk_values::{ANY_PORT, Actions, Band, FlowCommand, FlowMod, PortKind, PortRows, Row, Rows};
use std::alloc::{AllocError, Global};

// The ports of a switch.
pub(super) fn ports_at(
    alloc: Global,
    rows: Option<&Rows>,
    sw: u16,
) -> Result<Vec<&PortRows>, AllocError>
    ensures { IfOk result (λ v. map (λ p. p.now) v.items ≡ ports_at (option_map (λ r. r.now) rows.entry) sw) }
{
    let mut ports = Vec::new(alloc);
    let Some(rows) = rows else {
        return Ok(ports);
    };
    for port in &rows.ports {
        if port.sw == sw {
            ports.push(port)?;
        }
    }
    Ok(ports)
}

// Puts what comes or goes at once at these ports at the end of a batch.
pub(super) fn put_bulk(
    batch: &mut Batch,
    adds: bool,
    band: Band,
    ports: &[&PortRows],
) -> Result<(), AllocError>
    ensures { OnOk result (batch.new ≡ batch.old ++ map (mod_of adds) (bulk band (map (λ p. p.now) ports.now))) }
{
    for port in ports {
        let rows = at_once(band, port.kind, port.rows.as_slice());
        put_rows(batch, adds, rows)?;
    }
    Ok(())
}

// Puts what comes or goes in a round at these ports at the end of a batch.
pub(super) fn put_round(
    batch: &mut Batch,
    adds: bool,
    band: Band,
    ports: &[&PortRows],
    round: usize,
) -> Result<(), AllocError>
    requires { 1 ≤ round }
    ensures { OnOk result (batch.new ≡ batch.old ++ map (mod_of adds)
        (round_rows adds round band (map (λ p. p.now) ports.now))) }
{
    for port in ports {
        let rows = by_rounds(band, port.kind, port.rows.as_slice());
        put_row(batch, adds, row_in(adds, round, rows))?;
    }
    Ok(())
}

fn put_rows(batch: &mut Batch, adds: bool, rows: &[Row]) -> Result<(), AllocError>
    ensures { OnOk result (batch.new ≡ batch.old ++ map (mod_of adds) rows.now) }
{
    for row in rows {
        batch.push(mod_of(adds, row)?)?;
    }
    Ok(())
}

fn put_row(batch: &mut Batch, adds: bool, row: Option<&Row>) -> Result<(), AllocError>
    ensures { OnOk result (batch.new ≡ batch.old ++ map (mod_of adds)
        (option_to_list (option_map (λ r. r.now) row.entry))) }
{
    if let Some(row) = row {
        batch.push(mod_of(adds, row)?)?;
    }
    Ok(())
}

// The row of a list that comes or goes in a round.
pub(crate) fn row_in(adds: bool, round: usize, rows: &[Row]) -> Option<&Row>
    ensures { option_to_list (option_map (λ r. r.now) result) ≡ row_in adds round rows.now }
{
    if adds {
        return rows.get(round.saturating_sub(1));
    }
    if round <= rows.len() {
        return rows.get(rows.len() - round);
    }
    None
}

// The rows that come and go round by round.
pub(crate) fn by_rounds(band: Band, kind: PortKind, rows: &[Row]) -> &[Row]
    ensures { result.now ≡ by_rounds band kind rows.now }
{
    match (band, kind) {
        (Band::High, PortKind::Edge) => rows,
        _ => &[],
    }
}

// The rows that come and go at once.
pub(crate) fn at_once(band: Band, kind: PortKind, rows: &[Row]) -> &[Row]
    ensures { result.now ≡ at_once band kind rows.now }
{
    match (band, kind) {
        (Band::High, PortKind::Edge) => &[],
        _ => rows,
    }
}

/// The flow mod that adds a row, or deletes it.
pub fn mod_of(adds: bool, row: &Row) -> Result<FlowMod, AllocError>
    ensures { IfOk result (λ m. m ≡ mod_of adds row.now) }
{
    Ok(FlowMod {
        command: if adds {
            FlowCommand::Add
        } else {
            FlowCommand::DeleteStrict
        },
        pattern: row.pattern,
        priority: row.priority,
        out_port: ANY_PORT,
        actions: if adds {
            row.actions.copy()?
        } else {
            Actions::none()
        },
    })
}
