//! Flow statistics (OpenFlow 1.0.0, 5.3.5): the rows that a switch tells.
//!
//! Layer: updates; private. Adds calls to `Switch`.
ghost use Rattle.std.specs.Prelude.{◌≡◌, ◌≤◌, ◌↔◌, ℕ, IsTrue, IfOk};
ghost use Rattle.std.specs.List.{AllByRecursion};
ghost use Rattle.nk_values.specs.declared.row.Row.{Row as RowValue};
ghost use Rattle.nk_values.specs.Fitting.{actions_len, IsWritable};
ghost use Rattle.nk_values.specs.Members.{IsIn};
ghost use Rattle.nk_values.specs.Tables.{Distinct};
ghost use Rattle.openflow_wire.specs.Writing.{Fits};
ghost use Rattle.switch_model.specs.Stats.{ArePicked, AreTold, IsOfTable, IsRequest, AnswersStats, deletion};

use crate::replies::replies;
use crate::switch::Switch;
use flow_table::is_meant;
use nk_values::{Actions, Duplicate, FlowCommand, FlowMod, Pattern, Row};
use openflow_wire::{Message, rank};
use std::alloc::{AllocError, Global};

// The number that stands for all tables, OFPTT_ALL.
const ALL_TABLES: u8 = 255;

impl Switch {
    /// Answers a request for rows: those of its table that a deletion with the request's pattern and out port would
    /// remove, in the order of their keys. Each reply is as full as it can be, and nothing is counted.
    pub fn stats(&self, alloc: Global, request: &Message) -> Result<Vec<Message>, AllocError>
        requires asks { IsRequest request.now }
        requires few { (r : RowValue) → IsIn self.now.table.rows r → actions_len r.actions ≤ 60000 }
        ensures told { IfOk result (λ v. AnswersStats self.now.table.rows request.now v.items) }
        ensures fits { Fits request.now → ((r : RowValue) → IsIn self.now.table.rows r → IsWritable r) →
            IfOk result (λ v. AllByRecursion Fits v.items) }
    {
        let Message::FlowStatsRequest {
            xid,
            pattern,
            table,
            out_port,
        } = request
        else {
            return Ok(Vec::new(alloc));
        };
        if !is_of_table(*table) {
            return replies(alloc, *xid, &[]);
        }
        row_replies(alloc, self.table().rows(), *xid, pattern, *out_port)
    }
}

// Whether a request for rows is for the switch's only table, or for all.
fn is_of_table(table: u8) -> bool
    ensures { IsTrue result ↔ IsOfTable table }
{
    table == 0 || table == ALL_TABLES
}

// Replies with the rows that a deletion with this pattern and out port would remove.
fn row_replies(
    alloc: Global,
    rows: &[Row],
    xid: u32,
    pattern: &Pattern,
    out_port: u16,
) -> Result<Vec<Message>, AllocError>
    requires distinct { Distinct rows.now }
    requires few { (r : RowValue) → IsIn rows.now r → actions_len r.actions ≤ 60000 }
    ensures { IfOk result (λ v. (table : ℕ) → IsOfTable table →
        AreTold rows.now xid table (deletion pattern.now out_port) v.items) }
{
    let mut meant = rows_of_deletion(alloc, rows, pattern, out_port)?;
    rank(&mut meant)?;
    replies(alloc, xid, &meant)
}

// The rows that a deletion with this pattern and out port would remove, in the order in which they are.
fn rows_of_deletion(
    alloc: Global,
    rows: &[Row],
    pattern: &Pattern,
    out_port: u16,
) -> Result<Vec<Row>, AllocError>
    ensures { IfOk result (λ v. ArePicked (deletion pattern.now out_port) rows.now v.items) }
{
    let change = FlowMod {
        command: FlowCommand::Delete,
        pattern: *pattern,
        priority: 0,
        out_port,
        actions: Actions::none(),
    };
    rows_meant(alloc, rows, &change)
}

// The rows that a change is meant for, in the order in which they are.
fn rows_meant(alloc: Global, rows: &[Row], change: &FlowMod) -> Result<Vec<Row>, AllocError>
    ensures { IfOk result (λ v. ArePicked change.now rows.now v.items) }
{
    let mut meant = Vec::new(alloc);
    for row in rows {
        if is_meant(change, row) {
            meant.push(row.copy(alloc)?)?;
        }
    }
    Ok(meant)
}
