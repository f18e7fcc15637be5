//! Planned rows beside the messages of a report.
//!
//! Layer: tests; private. Called by `tables`.
use crate::rows::{key_text, row_text};
use flow_audit::{AuditError, AuditFault, Verdict};
use flow_index::Table;
use nk_values::{ANY_PORT, Duplicate, FlowCommand, FlowMod, Row};
use openflow_wire::Message;
use std::alloc::{AllocError, Global};

const CAPACITY: usize = 65_535;

/// The planned rows, each with a key of its own, and the messages so far.
#[derive(Drop)]
pub struct Case {
    pub planned: Table,
    pub messages: Vec<Message>,
}

impl Case {
    /// No rows and no messages.
    pub fn new(alloc: Global) -> Case {
        Case {
            planned: Table::new(alloc, CAPACITY),
            messages: Vec::new(alloc),
        }
    }

    /// Plans these rows and no others.
    pub fn plan(&mut self, alloc: Global, rows: &[Row]) -> Result<(), AllocError> {
        self.planned = Table::new(alloc, CAPACITY);
        for row in rows {
            let mut change = addition(alloc, row)?;
            if self.planned.change(alloc, &mut change).is_err() {
                return Err(AllocError);
            }
        }
        Ok(())
    }
}

// The flow mod that adds a row.
fn addition(alloc: Global, row: &Row) -> Result<FlowMod, AllocError> {
    Ok(FlowMod {
        command: FlowCommand::Add,
        pattern: row.pattern,
        priority: row.priority,
        out_port: ANY_PORT,
        actions: row.actions.copy()?,
    })
}

/// The text of a verdict, or of why there is none.
pub fn verdict_text(
    alloc: Global,
    verdict: Result<Verdict, AuditError>,
) -> Result<String, AllocError> {
    match verdict {
        Ok(Verdict::Same) => String::from_str(alloc, "same"),
        Ok(Verdict::Missing(row)) => format!(in alloc; "missing {}", row_text(alloc, &row)?),
        Ok(Verdict::Surplus(row)) => format!(in alloc; "surplus {}", row_text(alloc, &row)?),
        Ok(Verdict::Actions { planned, reported }) => {
            let (planned, reported) = (row_text(alloc, &planned)?, row_text(alloc, &reported)?);
            format!(in alloc; "actions {reported}, planned {planned}")
        }
        Err(AuditError::Fault(fault)) => fault_text(alloc, fault),
        Err(AuditError::Memory) => Err(AllocError),
    }
}

fn fault_text(alloc: Global, fault: AuditFault) -> Result<String, AllocError> {
    match fault {
        AuditFault::NotFlows => String::from_str(alloc, "not flows"),
        AuditFault::Unfinished => String::from_str(alloc, "unfinished"),
        AuditFault::Twice { row } => format!(in alloc; "twice {}", key_text(alloc, &row)?),
    }
}
