//! Reads numbers from standard input, one a line, and prints for each how much there is of its workload: its switches,
//! policies and packets, the events that were drawn until none could happen, and the finished histories.
//!
//! Layer: tests; nothing calls it.
#![tactic(auto)]

use report_text::{Text, generated_text};
use std::alloc::{AllocError, Global};
use std::io;
use workload_gen::drive;

fn main(rt: HostRuntime) -> io::Result<()> {
    let alloc = rt.alloc();
    let text = io::read_to_string(alloc, rt.stdin())?;
    for line in text.lines() {
        print!(rt; "{}", line_of(alloc, line.parse().unwrap_or(0))?.as_str())?;
    }
    Ok(())
}

fn line_of(alloc: Global, number: u64) -> Result<Text, AllocError> {
    let driven = drive(alloc, number)?;
    generated_text(alloc, driven.packets, &driven.world, &driven.events)
}
