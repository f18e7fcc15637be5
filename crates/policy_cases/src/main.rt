//! Reads cases of policies from standard input, one a line, and prints what is told of each.
//!
//! A line that begins with `===` begins a section: policies that are read, paths of diagrams, or diagrams of policies.
//! Each part's file says what its lines are. A line that begins with `==` is a heading.
//!
//! Layer: tests; nothing calls it.
#![tactic(auto)]

mod diagrams;
mod paths;
mod policies;
mod reading;
mod told;

use crate::diagrams::Diagrams;
use std::alloc::{AllocError, Global};
use std::io;

// What the lines of a section are.
#[derive(Clone, Copy)]
enum Section {
    Policies,
    Paths,
    Diagrams,
}

impl Section {
    // The section that a heading begins.
    fn named(heading: &str) -> Section {
        match heading {
            "=== Paths of diagrams" => Section::Paths,
            "=== Diagrams of policies" => Section::Diagrams,
            _ => Section::Policies,
        }
    }
}

fn main(rt: HostRuntime) -> io::Result<()> {
    let alloc = rt.alloc();
    let text = io::read_to_string(alloc, rt.stdin())?;
    let mut diagrams = Diagrams::new(alloc);
    let mut section = Section::Policies;
    for line in text.lines() {
        if line.starts_with("===") {
            section = Section::named(line);
            println!(rt; "{line}")?;
        } else if line.starts_with("==") {
            diagrams.begin();
            println!(rt; "{line}")?;
        } else {
            println!(rt; "{}", answer(alloc, &mut diagrams, section, line)?)?;
        }
    }
    Ok(())
}

// What is told of a line.
fn answer(
    alloc: Global,
    diagrams: &mut Diagrams,
    section: Section,
    line: &str,
) -> Result<String, AllocError> {
    match section {
        Section::Policies => reading::answer(alloc, line),
        Section::Paths => String::from_str(alloc, paths::answer(alloc, line)?),
        Section::Diagrams => diagrams.answer(alloc, line),
    }
}
