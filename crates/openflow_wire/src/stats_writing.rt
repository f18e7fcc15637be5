//! Flow statistics written as bytes (OpenFlow 1.0.0, 5.3.5), into room that is there.
//!
//! Layer: messages; public. Called by `encoding` and `stats_spelling` here, and by switch_model.
ghost use Rattle.std.specs.Prelude.{◌≡◌, ◌+◌, ◌<◌, ◌≤◌, ◌^◌};
ghost use Rattle.std.specs.List.{AllByRecursion};
ghost use Rattle.nk_values.specs.Fitting.{FitsPattern};
ghost use Rattle.openflow_wire.specs.FlowStats.{FitsEntry, entry_len, entries_len};
ghost use Rattle.openflow_wire.specs.Writing.{PutsBytes, entry_bytes, entry_head, entries_bytes, more_flag};
ghost use Rattle.openflow_wire.specs.Writing.{request_bytes, reply_bytes};

use crate::flow_stats::FlowStats;
use crate::mod_writing::{actions_wire_len, put_actions};
use crate::writing::{put_byte, put_half, put_long, put_match, put_station, put_word};
use bytes::BytesMut;
use nk_values::Pattern;

/// How many bytes an entry takes.
pub fn entry_len(entry: &FlowStats) -> usize
    ensures value { result ≡ entry_len entry.now }
    ensures small { result < 2 ^ 63 + 88 }
    ensures least { 88 ≤ result }
{
    88 + actions_wire_len(entry.row.actions.as_slice())
}

/// How many bytes these entries take.
pub fn entries_wire_len(entries: &[FlowStats]) -> usize
    requires { entries_len entries.now < 2 ^ 63 }
    ensures { result ≡ entries_len entries.now }
{
    let mut len = 0;
    for entry in entries {
        len += entry_len(entry);
    }
    len
}

/// What stands after the header of a request for rows: no flags.
#[tactic(auto, unfolding(crate::specs::Writing::request_bytes))]
pub fn put_request(out: &mut BytesMut, pattern: &Pattern, table: u8, out_port: u16)
    requires room { 48 ≤ out.old.spare }
    requires fits { FitsPattern pattern.now }
    ensures { PutsBytes out.old out.new 48 (request_bytes pattern.now table out_port) }
{
    put_half(out, 1);
    put_half(out, 0);
    put_match(out, pattern);
    put_byte(out, table);
    put_byte(out, 0);
    put_half(out, out_port);
}

/// What stands after the header of a reply with rows.
#[tactic(auto, unfolding(crate::specs::Writing::reply_bytes))]
pub fn put_reply(out: &mut BytesMut, more: bool, entries: &[FlowStats])
    requires room { 4 + entries_len entries.now ≤ out.old.spare }
    requires fits { AllByRecursion FitsEntry entries.now }
    requires few { entries_len entries.now < 2 ^ 16 }
    ensures { PutsBytes out.old out.new (4 + entries_len entries.now) (reply_bytes more entries.now) }
{
    put_half(out, 1);
    put_half(out, more_flag(more));
    put_entries(out, entries);
}

fn more_flag(more: bool) -> u16
    ensures { result ≡ more_flag more }
{
    if more { 1 } else { 0 }
}

fn put_entries(out: &mut BytesMut, entries: &[FlowStats])
    requires room { entries_len entries.now ≤ out.old.spare }
    requires fits { AllByRecursion FitsEntry entries.now }
    requires few { entries_len entries.now < 2 ^ 16 }
    ensures { PutsBytes out.old out.new (entries_len entries.now) (entries_bytes entries.now) }
{
    for entry in entries {
        put_entry(out, entry);
    }
}

#[tactic(auto, unfolding(crate::specs::Writing::entry_bytes))]
fn put_entry(out: &mut BytesMut, entry: &FlowStats)
    requires room { entry_len entry.now ≤ out.old.spare }
    requires fits { FitsEntry entry.now }
    requires few { entry_len entry.now < 2 ^ 16 }
    ensures { PutsBytes out.old out.new (entry_len entry.now) (entry_bytes entry.now) }
{
    put_entry_head(out, entry);
    put_actions(out, entry.row.actions.as_slice());
}

// What stands before the actions.
#[tactic(auto, unfolding(crate::specs::Writing::entry_head))]
fn put_entry_head(out: &mut BytesMut, entry: &FlowStats)
    requires room { 88 ≤ out.old.spare }
    requires fits { FitsEntry entry.now }
    requires few { entry_len entry.now < 2 ^ 16 }
    ensures { PutsBytes out.old out.new 88 (entry_head entry.now) }
{
    put_half(out, entry_len(entry) as u16);
    put_byte(out, entry.table);
    put_byte(out, 0);
    put_match(out, &entry.row.pattern);
    put_word(out, entry.seconds);
    put_word(out, entry.nanoseconds);
    put_half(out, entry.row.priority);
    put_half(out, entry.idle_timeout);
    put_half(out, entry.hard_timeout);
    put_station(out, 0);
    put_long(out, entry.cookie);
    put_long(out, entry.packets);
    put_long(out, entry.bytes);
}
