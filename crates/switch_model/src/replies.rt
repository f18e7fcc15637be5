//! Replies to requests for rows, filled entry by entry.
//!
//! Layer: updates; private. Called by `stats`.
ghost use Rattle.std.specs.Prelude.{◌≡◌, ◌≤◌, ◌++◌, ◌∷◌, [], IfOk, OnOk, false};
ghost use Rattle.nk_values.specs.declared.row.Row.{Row as RowValue};
ghost use Rattle.nk_values.specs.Fitting.{actions_len};
ghost use Rattle.nk_values.specs.Members.{IsIn};
ghost use Rattle.openflow_wire.specs.declared.message.Message.TheVariants as to;
ghost use Rattle.switch_model.specs.Stats.{AreReplies, HasEntryRoom, TellsMore, entry_of, reply_len};

use nk_values::{Duplicate, List, Row};
use openflow_wire::{FlowStats, Message, entry_len};
use std::alloc::{AllocError, Global};
use std::mem;

// The greatest length of a message, and how many bytes of a reply come before its entries.
const LONGEST: usize = 65_535;

const REPLY_HEAD: usize = 12;

/// Replies with these rows in turn, each as full as it can be.
pub fn replies(alloc: Global, xid: u32, rows: &[Row]) -> Result<Vec<Message>, AllocError>
    requires { (r : RowValue) → IsIn rows.now r → actions_len r.actions ≤ 60000 }
    ensures { IfOk result (λ v. AreReplies xid rows.now v.items) }
{
    let mut series = ReplySeries::new(alloc, xid);
    for row in rows {
        series.add(alloc, row)?;
    }
    series.finish()
}

// Replies that are full, and the next one: its entries, and how many bytes it takes so far.
#[derive(Drop)]
struct ReplySeries {
    xid: u32,
    full: Vec<Message>,
    entries: List<FlowStats>,
    len: usize,
}

impl ReplySeries {
    fn new(alloc: Global, xid: u32) -> ReplySeries
        ensures xid { result.xid ≡ xid }
        ensures len { result.len ≡ reply_len result.entries }
        ensures few { result.len ≤ LONGEST }
        ensures full { result.full.items ≡ [] }
        ensures entries { result.entries ≡ [] }
    {
        ReplySeries {
            xid,
            full: Vec::new(alloc),
            entries: List::new(alloc),
            len: REPLY_HEAD,
        }
    }

    // Puts a row into the next reply, or, if that has no room for it, into one more.
    fn add(&mut self, alloc: Global, row: &Row) -> Result<(), AllocError>
        requires len { self.old.len ≡ reply_len self.old.entries }
        requires few { self.old.len ≤ LONGEST }
        requires small { actions_len row.now.actions ≤ 60000 }
        ensures xid { self.new.xid ≡ self.old.xid }
        ensures len { OnOk result (self.new.len ≡ reply_len self.new.entries) }
        ensures few { OnOk result (self.new.len ≤ LONGEST) }
        ensures more { OnOk result
            (TellsMore self.old.xid self.old.full.items self.old.entries row.now self.new.full.items self.new.entries) }
    {
        let entry = entry_of(alloc, row)?;
        let size = entry_len(&entry);
        self.make_room(alloc, size)?;
        self.entries.push(entry)?;
        self.len += size;
        Ok(())
    }

    // Room for an entry of `size` bytes: there is some, or the next reply is full and another begins.
    fn make_room(&mut self, alloc: Global, size: usize) -> Result<(), AllocError>
        requires len { self.old.len ≡ reply_len self.old.entries }
        requires few { self.old.len ≤ LONGEST }
        ensures xid { self.new.xid ≡ self.old.xid }
        ensures len { OnOk result (self.new.len ≡ reply_len self.new.entries) }
        ensures room { OnOk result
            (HasEntryRoom self.old.xid size self.old.full.items self.old.entries self.new.full.items self.new.entries) }
    {
        if size <= LONGEST - self.len {
            return Ok(());
        }
        let entries = mem::replace(&mut self.entries, List::new(alloc));
        self.full.push(Message::FlowStatsReply {
            xid: self.xid,
            more: true,
            entries,
        })?;
        self.len = REPLY_HEAD;
        Ok(())
    }

    // The replies, of which the last has no more.
    fn finish(self) -> Result<Vec<Message>, AllocError>
        ensures { IfOk result (λ v. v.items ≡ self.full.items ++ to.FlowStatsReply self.xid false self.entries ∷ []) }
    {
        let ReplySeries {
            xid,
            mut full,
            entries,
            ..
        } = self;
        full.push(Message::FlowStatsReply {
            xid,
            more: false,
            entries,
        })?;
        Ok(full)
    }
}

// A row of table 0 with nothing counted.
fn entry_of(alloc: Global, row: &Row) -> Result<FlowStats, AllocError>
    ensures { IfOk result (λ e. e ≡ entry_of row.now) }
{
    Ok(FlowStats {
        table: 0,
        row: row.copy(alloc)?,
        seconds: 0,
        nanoseconds: 0,
        idle_timeout: 0,
        hard_timeout: 0,
        cookie: 0,
        packets: 0,
        bytes: 0,
    })
}
