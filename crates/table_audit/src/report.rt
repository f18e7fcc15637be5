//! What a switch reports, by messages that go as bytes.
//!
//! Layer: the world; private. Called by `auditing`.
ghost use Rattle.std.specs.Prelude.{◌≡◌, IfOk};
ghost use Rattle.std.specs.List.{AllByRecursion};
ghost use Rattle.nk_values.specs.declared.row.Row.{Row as RowValue};
ghost use Rattle.nk_values.specs.Fitting.{IsWritable};
ghost use Rattle.nk_values.specs.Members.{IsIn};
ghost use Rattle.openflow_wire.specs.Writing.{Fits};
ghost use Rattle.table_audit.specs.Reports.{AreReportOf, request};

use bytes::BytesMut;
use nk_values::{ANY_PORT, Pattern};
use openflow_wire::{Message, WireError, decode, encode};
use std::alloc::{AllocError, Global};
use switch_model::Switch;

// The number that stands for all tables, OFPTT_ALL.
const ALL_TABLES: u8 = 255;

/// What a switch answers that is asked for all of its rows. The request and the replies go as bytes.
pub fn row_report(alloc: Global, switch: &Switch) -> Result<Vec<Message>, AllocError>
    requires { (r : RowValue) → IsIn switch.now.table.rows r → IsWritable r }
    ensures { IfOk result (λ v. AreReportOf switch.now.table.rows v.items) }
{
    let request = transfer(alloc, &request())?;
    let replies = switch.stats(alloc, &request)?;
    transfer_all(alloc, &replies)
}

// Asks for all rows, whatever port they send to.
fn request() -> Message
    ensures { result ≡ request }
{
    Message::FlowStatsRequest {
        xid: 1,
        pattern: Pattern::any(),
        table: ALL_TABLES,
        out_port: ANY_PORT,
    }
}

// Messages as the other side reads them.
fn transfer_all(alloc: Global, messages: &[Message]) -> Result<Vec<Message>, AllocError>
    requires { AllByRecursion Fits messages.now }
    ensures { IfOk result (λ v. v.items ≡ messages.now) }
{
    let mut all = Vec::new(alloc);
    for message in messages {
        all.push(transfer(alloc, message)?)?;
    }
    Ok(all)
}

// A message as the other side reads it, from the bytes that are written.
fn transfer(alloc: Global, message: &Message) -> Result<Message, AllocError>
    requires { Fits message.now }
    ensures { IfOk result (λ m. m ≡ message.now) }
{
    let mut bytes = BytesMut::new(alloc);
    encode(message, &mut bytes)?;
    match decode(alloc, &bytes) {
        Ok(read) => Ok(read),
        Err(WireError::Memory) => Err(AllocError),
        Err(WireError::Fault(_)) => unreachable!(),
    }
}
