//! Rows as text.
//!
//! Layer: tests; private. Called by `reports`.
use nk_values::{Action, Actions, List, NetworkMatch, Pattern, Prefix, Row, StationMatch};
use openflow_wire::{FlowStats, Message};
use std::alloc::{AllocError, Global};

// An address whose bits are all fixed to 0.
const ZERO: Prefix = Prefix {
    address: 0,
    length: 32,
};

/// The reply with the rows of a text.
pub fn report(alloc: Global, more: bool, text: &str) -> Result<Message, AllocError> {
    let mut entries = List::new(alloc);
    for row in rows_of(alloc, text)? {
        entries.push(entry(row))?;
    }
    Ok(Message::FlowStatsReply {
        xid: 1,
        more,
        entries,
    })
}

// An entry with numbers beside its row that no audit asks for.
fn entry(row: Row) -> FlowStats {
    FlowStats {
        table: 3,
        row,
        seconds: 60,
        nanoseconds: 5,
        idle_timeout: 7,
        hard_timeout: 8,
        cookie: 9,
        packets: 10,
        bytes: 640,
    }
}

/// The rows between the bars of a text.
pub fn rows_of(alloc: Global, text: &str) -> Result<Vec<Row>, AllocError> {
    let mut rows = Vec::new(alloc);
    for part in text.split('|') {
        if let Some((key, ports)) = part.split_once(" :") {
            rows.push(row_of(alloc, key, ports)?)?;
        }
    }
    Ok(rows)
}

fn row_of(alloc: Global, key: &str, ports: &str) -> Result<Row, AllocError> {
    let mut row = Row {
        pattern: Pattern::any(),
        priority: 0,
        actions: actions_of(alloc, ports)?,
    };
    for word in key.split(' ') {
        add_word(&mut row, word);
    }
    Ok(row)
}

fn actions_of(alloc: Global, ports: &str) -> Result<Actions, AllocError> {
    let mut actions = List::new(alloc);
    for port in ports.split(' ') {
        if let Ok(port) = port.parse::<u16>() {
            actions.push(Action::Output(port))?;
        }
    }
    Actions::of(alloc, actions)
}

// A word of a key: all other words are left out.
fn add_word(row: &mut Row, word: &str) {
    if word == "exact" {
        row.pattern = exact();
    } else if let Some(port) = word.strip_prefix("in=") {
        row.pattern.in_port = port.parse().ok();
    } else if let Some(address) = word.strip_prefix("ethDst=") {
        row.pattern.dl_dst = StationMatch::of(address.parse().ok());
    } else if let Ok(priority) = word.parse() {
        row.priority = priority;
    }
}

// The pattern that fixes each field to 0.
fn exact() -> Pattern {
    Pattern {
        in_port: Some(0),
        dl_src: StationMatch::of(Some(0)),
        dl_dst: StationMatch::of(Some(0)),
        dl_vlan: Some(0),
        dl_vlan_pcp: Some(0),
        dl_type: Some(0),
        nw_tos: Some(0),
        nw_proto: Some(0),
        nw_src: NetworkMatch::of(Some(ZERO)),
        nw_dst: NetworkMatch::of(Some(ZERO)),
        tp_src: Some(0),
        tp_dst: Some(0),
    }
}

/// The text of a row.
pub fn row_text(alloc: Global, row: &Row) -> Result<String, AllocError> {
    let mut text = key_text(alloc, row)?;
    text.push_str(" :")?;
    for action in &row.actions {
        if let Action::Output(port) = action {
            text.push_str(&format!(in alloc; " {port}")?)?;
        }
    }
    Ok(text)
}

/// The text of the key of a row.
pub fn key_text(alloc: Global, row: &Row) -> Result<String, AllocError> {
    let mut text = format!(in alloc; "{}", row.priority)?;
    if row.pattern.is_exact() {
        text.push_str(" exact")?;
    }
    if let Some(port) = row.pattern.in_port {
        text.push_str(&format!(in alloc; " in={port}")?)?;
    }
    if let Some(address) = row.pattern.dl_dst.get() {
        text.push_str(&format!(in alloc; " ethDst={address}")?)?;
    }
    Ok(text)
}
