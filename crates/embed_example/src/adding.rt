//! The messages that add rows to the table of a switch.
//!
//! Layer: tests; private. Called by the root of the crate.
ghost use Rattle.std.specs.Prelude.{◌≡◌, IfOk, true};
ghost use Rattle.nk_values.specs.declared.row.Row.{Row};
ghost use Rattle.nk_values.specs.Fitting.{IsWritable};
ghost use Rattle.nk_values.specs.Members.{IsIn};
ghost use Rattle.openflow_wire.specs.declared.message.Message.TheVariants as to;
ghost use Rattle.openflow_wire.specs.RowChanges.{mod_of};
ghost use Rattle.openflow_wire.specs.Writing.{written};
ghost use Rattle.policy_rows.specs.Limits.{AreWritable};

use bytes::BytesMut;
use nk_values::{ANY_PORT, FlowCommand, FlowMod, PortRows, Row, Rows};
use openflow_wire::{Message, encode};
use std::alloc::{AllocError, Global};

// The transaction number of every message. A controller that waits for answers counts instead.
const XID: u32 = 0;

/// A line for each row, port by port: the port, and the bytes of the message that adds the row, in hexadecimal.
pub fn additions(alloc: Global, rows: &Rows) -> Result<String, AllocError>
    requires { AreWritable rows.now }
{
    let mut told = String::new(alloc);
    for port in &rows.ports {
        told.push_str(&port_additions(alloc, port)?)?;
    }
    Ok(told)
}

// The same for one port.
fn port_additions(alloc: Global, port: &PortRows) -> Result<String, AllocError>
    requires { (row : Row) → IsIn port.now.rows row → IsWritable row }
{
    let mut told = String::new(alloc);
    for row in &port.rows {
        let message = addition(alloc, row)?;
        let digits = hex::encode(alloc, message.as_slice())?;
        told.push_str(&format!(in alloc; "{}:{} {digits}\n", port.sw, port.pt)?)?;
    }
    Ok(told)
}

// The message that adds a row, as bytes.
fn addition(alloc: Global, row: &Row) -> Result<BytesMut, AllocError>
    requires { IsWritable row.now }
    ensures { IfOk result (λ bytes. bytes.items ≡ written (to.FlowMod 0 (mod_of true row.now))) }
{
    let change = FlowMod {
        command: FlowCommand::Add,
        pattern: row.pattern,
        priority: row.priority,
        out_port: ANY_PORT,
        actions: row.actions.copy()?,
    };
    let message = Message::FlowMod { xid: XID, change };
    let mut bytes = BytesMut::new(alloc);
    encode(&message, &mut bytes)?;
    Ok(bytes)
}
