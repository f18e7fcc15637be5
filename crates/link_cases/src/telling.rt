//! What of a text is printed.
//!
//! Layer: tests; private. Called by the root of the crate.
use crate::case::Case;
use std::alloc::{AllocError, Global};

/// What is the same in all calls of a case. With several switches the lines of each stand together.
pub fn tell(alloc: Global, case: &Case, text: &str) -> Result<String, AllocError> {
    let mut out = String::new(alloc);
    if case.runs {
        put_run(alloc, &mut out, text)?;
        return Ok(out);
    }
    if case.short {
        put_lines(&mut out, text, Section::Outcome)?;
        return Ok(out);
    }
    if case.switches.len() < 2 {
        out.push_str(text)?;
        return Ok(out);
    }
    for sw in &case.switches {
        put_lines(&mut out, text, Section::Switch(*sw))?;
    }
    put_lines(&mut out, text, Section::Shared)?;
    Ok(out)
}

// Puts the phase of a run at the end, and how many packets came in.
fn put_run(alloc: Global, out: &mut String, text: &str) -> Result<(), AllocError> {
    put_lines(out, text, Section::Phase)?;
    let count = text
        .lines()
        .filter(|line| line.starts_with("arrival "))
        .count();
    out.push_str(&format!(in alloc; "{count} packets came in\n")?)
}

// Some lines of a text.
#[derive(Clone, Copy)]
enum Section {
    // That of the phase.
    Phase,
    // Those of no event.
    Outcome,
    // The events of this switch.
    Switch(u16),
    // All that is of no switch.
    Shared,
}

// Whether a line is in it.
fn is_in(section: Section, line: &str) -> bool {
    match section {
        Section::Phase => line.starts_with("phase "),
        Section::Outcome => !line.starts_with("e "),
        Section::Switch(sw) => switch_of(line) == Some(sw),
        Section::Shared => switch_of(line).is_none(),
    }
}

// Puts the lines of a section at the end.
fn put_lines(out: &mut String, text: &str, section: Section) -> Result<(), AllocError> {
    for line in text.lines() {
        if is_in(section, line) {
            out.push_str(line)?;
            out.push_str("\n")?;
        }
    }
    Ok(())
}

// The switch of an event's line, if it has one.
fn switch_of(line: &str) -> Option<u16> {
    let mut words = line.split_ascii_whitespace();
    if words.next() != Some("e") {
        return None;
    }
    match words.next()? {
        "begin" | "drained" => None,
        _ => words.next()?.parse::<u16>().ok(),
    }
}
