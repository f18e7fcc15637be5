//! Runs nkctl on each case of standard input, with all that it is given in memory, and prints how each call ended and
//! what it wrote.
//!
//! A case is a head line `== WORDS`, with the words of the command line, and the lines of a document after it. What is
//! to fail stands in the head line, after commas:
//!
//! - `pieces of 8`: at most 8 bytes a read and a write. `read 3 fails`, `write 2 fails`: that call does.
//! - `pair 1 fails`, `thread 2 fails`: that pair of ends is not made, or that thread not started, of a run. `no
//!   threads`: it is a call that can have none.
//! - `link 2: message 3 from the switch fails`, or `to the switch`: that send fails. Instead it `comes twice`, `is
//!   01130008` or `is cut to 01130008`; `is 01130008 and 100 zeros` has 100 bytes more. Link 2 is that of the second
//!   switch, and of two switches link 4 is that of its second session.
//!
//! A document line `%100 TEXT` stands for 100 lines TEXT, in each of which `{}` is the line's number from 1 and `{+}`
//! the next one; `~100 TEXT` for TEXT 100 times in one line, which is not ended. Of a long output the number of lines
//! is printed, and the last one; after one that stops within a line stands `(cut)`. A line `## TITLE` is printed as it
//! is.
//!
//! Of `run` and `watch` only what is the same in all runs is printed: the lines on the phase and on a halt or a fault,
//! and how many packets came in. If it is done, the number of lost sessions follows, and of `watch` that all events
//! were seen.
//!
//! A line `:: TABLE` names a table of calls. Below it is printed that all is as it must be, or the first case that is
//! not:
//!
//! - `links`: each call on a link of a run fails, counted in the order made, until none is left that could;
//! - `returns`: the same in a document that lets lost switches return;
//! - `random N`: N runs over links that fail at random, whose events are a schedule with the same report;
//! - `reports N`: the document of such runs, and then the report of each after a line `run`, for others to judge;
//! - `holds`: runs in which one worker is held until another has gone on;
//! - `reads`, `writes`: each read of a document in pieces of 16 bytes fails, and each write of a trace in such pieces;
//! - `events`: a session is lost after each event of an update, and two packets come in after it.
//!
//! If a run or an update of a table was cut off, each packet that came in, and is on its way no more, has to have the
//! histories of one policy of its entry. The definition of NetKAT gives them.
//!
//! Layer: tests; nothing calls it.
#![tactic(auto)]

mod calls;
mod case;
mod expanding;
mod holding;
mod holds;
mod links;
mod meaning;
mod plain;
mod random;
mod report;
mod returns;
mod shown;
mod tables;
mod trouble;

use case::Case;
use std::io;
use std::sync::Wait;
use std::thread::Threads;
use std::time::Clock;
use tables::table;

fn main(rt: HostRuntime) -> io::Result<()> {
    let alloc = rt.alloc();
    let text = io::read_to_string(alloc, rt.stdin())?;
    let mut case = None;
    for line in text.lines() {
        if line.starts_with("## ") {
            say(rt, case)?;
            case = None;
            println!(rt; "{line}")?;
        } else if let Some(name) = line.strip_prefix(":: ") {
            say(rt, case)?;
            case = None;
            println!(rt; "{line}\n{}", table(rt, name)?.as_str())?;
        } else if let Some(head) = line.strip_prefix("==") {
            say(rt, case)?;
            case = Some(Case::new(alloc, head)?);
        } else if let Some(case) = &mut case {
            case.push_line(alloc, line)?;
        }
    }
    say(rt, case)
}

// Prints what a case comes to, if there is one.
fn say<
    R: Wait + Clock + Threads + Print + AllocGlobal + Copy + Clone + Drop + Send + Sync + 'static,
>(rt: R, case: Option<Case>) -> io::Result<()> {
    let Some(case) = case else {
        return Ok(());
    };
    println!(rt; "=={}", case.head())?;
    let text = case.told(rt)?;
    print!(rt; "{text}")
}
