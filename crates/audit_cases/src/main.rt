//! Reads cases from standard input, and prints how reported rows differ from planned ones.
//!
//! A row is written as `PRIORITY [exact] [in=PORT] [ethDst=ADDRESS] : PORT ..`, with the ports that it sends to;
//! `exact` fixes each other field to 0. A line `plan ROW | ROW ..` gives the planned rows. `report ROW | ROW ..` is one
//! reply with rows, `report more ROW | ROW ..` one that says that more come, and `other` a message of another kind.
//! `audit` prints the verdict on the messages since the last one, or why they are no report. `table N` asks a switch
//! for its N rows, and prints how many replies it gives, how many bytes the first and the last one take, how many say
//! that more come, and the verdict on them. Any other line is printed as it is.
//!
//! Layer: tests; nothing calls it.
#![tactic(auto)]

mod reports;
mod rows;
mod tables;

use crate::reports::{Case, verdict_text};
use crate::rows::{report, rows_of};
use crate::tables::table_answer;
use flow_audit::audit;
use openflow_wire::Message;
use std::alloc::{AllocError, Global};
use std::io;

fn main(rt: HostRuntime) -> io::Result<()> {
    let text = io::read_to_string(rt.alloc(), rt.stdin())?;
    let mut case = Case::new(rt.alloc());
    tell(&rt, &mut case, &text)
}

// Tells the lines of a text.
fn tell<R: Print + AllocGlobal>(rt: &R, case: &mut Case, text: &str) -> io::Result<()> {
    for line in text.lines() {
        if let Some(answer) = answer(rt.alloc(), case, line)? {
            println!(rt; "{answer}")?;
        }
    }
    Ok(())
}

// What is printed for a line, if anything is.
fn answer(alloc: Global, case: &mut Case, line: &str) -> Result<Option<String>, AllocError> {
    if let Some(rows) = line.strip_prefix("plan ") {
        case.plan(alloc, &rows_of(alloc, rows)?)?;
        Ok(None)
    } else if let Some(rows) = line.strip_prefix("report more") {
        case.messages.push(report(alloc, true, rows)?)?;
        Ok(None)
    } else if let Some(rows) = line.strip_prefix("report") {
        case.messages.push(report(alloc, false, rows)?)?;
        Ok(None)
    } else if line == "other" {
        case.messages.push(Message::BarrierReply { xid: 1 })?;
        Ok(None)
    } else if line == "audit" {
        let verdict = audit(alloc, case.planned.rows(), &case.messages);
        case.messages.clear();
        Ok(Some(verdict_text(alloc, verdict)?))
    } else if let Some(count) = line.strip_prefix("table ") {
        Ok(Some(table_answer(alloc, count.parse().unwrap_or(0))?))
    } else {
        Ok(Some(line.to_string(alloc)?))
    }
}
