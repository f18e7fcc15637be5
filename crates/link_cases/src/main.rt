//! Drives fake switches in memory through each case of standard input, and prints how each drive ended and what it
//! tells. With an argument, `run` or `watch`, it does that with the document of standard input over TCP of this
//! machine, and prints the report.
//!
//! A case is a head line `== NAME`, lines `= WORDS`, and the lines of a document. These words say what is odd:
//!
//! - `switch S tells N`: switch S tells datapath N. `switch S capacity N`: its table has room for N rows.
//! - `switch S greets with 0`: its HELLO has version 0. `switch S speaks 4`: its later messages have version 4.
//! - `switch S probes`: an ECHO_REQUEST comes before each of its answers. `switch S leaves after N`: it goes once it
//!   took N messages.
//! - `reporter after N`: it reports at the call after N others. `reporter fails at N`: its call N fails.
//! - `closed S`: the port of switch S cannot be opened.
//! - `short`: of the text the lines of events are not printed. With several switches the lines of each stand together.
//! - `over tcp`: the drive is over TCP of this machine. `late S`: switch S comes after the others. `absent S`: it never
//!   comes. `runs`: no drive but a run over TCP, of which the phase is printed, and how many packets came in.
//! - `reporter says LINE`: a line that the reporter writes as soon as it is in. `reporter leaves`: it is gone after
//!   that.
//!
//! Layer: tests; nothing calls it.
#![tactic(auto)]

mod call;
mod case;
mod fake;
mod loopback;
mod memory;
mod outcome;
mod speaker;
mod tcp;
mod telling;
mod wire;

use case::{Case, read_cases};
use loopback::run_over_tcp;
use memory::drive_in_memory;
use outcome::Outcome;
use std::alloc::AllocError;
use std::env::Env;
use std::io;
use std::net::{Net as Sockets, TcpListener, TcpStream};
use std::sync::Wait;
use std::thread::Threads;
use std::time::Clock;
use tcp::drive_over_tcp;
use telling::tell;

// The port of the first switch of the first case, and how far that of the next case lies from it.
const FIRST: u16 = 27_100;

const STEP: u16 = 10;

fn main(rt: HostRuntime) -> io::Result<()> {
    let text = io::read_to_string(rt.alloc(), rt.stdin())?;
    let mut word = [0u8; 8];
    let length = rt.arg(1, &mut word).unwrap_or(0);
    match &word[..length] {
        b"run" => print!(rt; "{}", run_over_tcp(rt, "run", &text)?.text),
        b"watch" => print!(rt; "{}", run_over_tcp(rt, "watch", &text)?.text),
        _ => print_cases(rt, &text),
    }
}

// Prints what each case comes to.
fn print_cases<
    R: Wait
        + Clock
        + Threads
        + Sockets<Stream = TcpStream, Listener = TcpListener>
        + Print
        + AllocGlobal
        + Copy
        + Clone
        + Drop
        + Send
        + Sync
        + 'static,
>(rt: R, text: &str) -> io::Result<()> {
    let alloc = rt.alloc();
    let mut first = FIRST;
    for case in &read_cases(alloc, text)? {
        let outcome = outcome_of(rt, case, first)?;
        first = first.saturating_add(STEP);
        println!(rt; "== {}", case.name)?;
        println!(rt; "status {}", outcome.status.number())?;
        let told = tell(alloc, case, outcome.text.as_str())?;
        print!(rt; "{told}")?;
    }
    Ok(())
}

// How a case ends.
fn outcome_of<
    R: Wait
        + Clock
        + Threads
        + Sockets<Stream = TcpStream, Listener = TcpListener>
        + AllocGlobal
        + Copy
        + Clone
        + Drop
        + Send
        + Sync
        + 'static,
>(rt: R, case: &Case, first: u16) -> Result<Outcome, AllocError> {
    if case.runs {
        return run_over_tcp(rt, "run", &case.document);
    }
    if case.tcp {
        drive_over_tcp(rt, case, first)
    } else {
        drive_in_memory(rt, case, first)
    }
}
