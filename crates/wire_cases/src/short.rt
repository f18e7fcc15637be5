//! Messages in short.
//!
//! Layer: tests; private. Called by `cases`.
use nk_values::FlowMod;
use openflow_wire::{FlowStats, Message};
use std::alloc::{AllocError, Global};

/// A message in short: its kind, its transaction number and its numbers. Bytes that it keeps are left out.
pub fn short(alloc: Global, message: &Message) -> Result<String, AllocError> {
    let xid = message.xid();
    match message {
        Message::Hello { version, .. } => format!(in alloc; "HELLO {xid}: version {version}"),
        Message::Error { form, code, .. } => {
            format!(in alloc; "ERROR {xid}: type {form} code {code}")
        }
        Message::EchoRequest { .. } => format!(in alloc; "ECHO_REQUEST {xid}"),
        Message::EchoReply { .. } => format!(in alloc; "ECHO_REPLY {xid}"),
        Message::FeaturesRequest { .. } => format!(in alloc; "FEATURES_REQUEST {xid}"),
        Message::FeaturesReply {
            datapath,
            buffers,
            tables,
            capabilities,
            actions,
            ..
        } => {
            format!(in alloc;
                "FEATURES_REPLY {xid}: datapath {datapath} buffers {buffers} tables {tables} capabilities {capabilities} actions {actions}"
            )
        }
        Message::FlowMod { change, .. } => short_change(alloc, xid, change),
        Message::FlowStatsRequest {
            pattern,
            table,
            out_port,
            ..
        } => {
            format!(in alloc;
                "FLOW_STATS_REQUEST {xid}: {pattern:?} table {table} out_port {out_port}"
            )
        }
        Message::FlowStatsReply { more, entries, .. } => {
            short_reply(alloc, xid, *more, entries.as_slice())
        }
        Message::BarrierRequest { .. } => format!(in alloc; "BARRIER_REQUEST {xid}"),
        Message::BarrierReply { .. } => format!(in alloc; "BARRIER_REPLY {xid}"),
        Message::Other { number, .. } => format!(in alloc; "type {number} {xid}"),
    }
}

// A change: its command, pattern, priority, out port and actions.
fn short_change(alloc: Global, xid: u32, change: &FlowMod) -> Result<String, AllocError> {
    format!(in alloc;
        "FLOW_MOD {xid}: {:?} {:?} priority {} out_port {} {:?}",
        change.command,
        change.pattern,
        change.priority,
        change.out_port,
        change.actions.as_slice()
    )
}

// A reply with rows: whether more come, and each entry.
fn short_reply(
    alloc: Global,
    xid: u32,
    more: bool,
    entries: &[FlowStats],
) -> Result<String, AllocError> {
    let mut text = format!(in alloc; "FLOW_STATS_REPLY {xid}: more {more}")?;
    for entry in entries {
        text.push_str(&short_entry(alloc, entry)?)?;
    }
    Ok(text)
}

// An entry: its row, and the numbers that stand beside it.
fn short_entry(alloc: Global, entry: &FlowStats) -> Result<String, AllocError> {
    format!(in alloc;
        ", table {} {:?} priority {} {:?} seconds {} nanoseconds {} idle {} hard {} cookie {} packets {} bytes {}",
        entry.table,
        entry.row.pattern,
        entry.row.priority,
        entry.row.actions.as_slice(),
        entry.seconds,
        entry.nanoseconds,
        entry.idle_timeout,
        entry.hard_timeout,
        entry.cookie,
        entry.packets,
        entry.bytes
    )
}
