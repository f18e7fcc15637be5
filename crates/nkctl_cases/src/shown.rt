//! What is printed of a call.
//!
//! Layer: tests; private. Called by `case`.
use crate::calls::Outcome;
use crate::report::count_of;
use controller_program::Status;
use std::alloc::{AllocError, Global};

// What is printed whole, in bytes, and of a line of a run.
const LONG: usize = 4000;

const WIDE: usize = 200;

/// The status, and the text or a part of it.
pub fn shown(alloc: Global, outcome: &Outcome) -> Result<String, AllocError> {
    let Outcome { status, text } = outcome;
    let number = status.number();
    if !text.is_empty() && !text.ends_with("\n") {
        return format!(in alloc; "{number} {status:?}\n{text}(cut)\n");
    }
    if text.len() <= LONG {
        return format!(in alloc; "{number} {status:?}\n{text}");
    }
    let count = text.lines().count();
    let last = text.lines().last().unwrap_or("");
    format!(in alloc; "{number} {status:?}\n({count} lines, the last one: {last})\n")
}

/// The status, and what is the same in all runs that end so.
pub fn shown_run(alloc: Global, outcome: &Outcome) -> Result<String, AllocError> {
    let Outcome { status, text } = outcome;
    let mut out = format!(in alloc; "{} {status:?}\n", status.number())?;
    for line in text.lines() {
        push_same(alloc, &mut out, line)?;
    }
    push_count(
        alloc,
        &mut out,
        count_of(text, "arrival "),
        "packets came in",
    )?;
    if *status == Status::Done {
        push_count(
            alloc,
            &mut out,
            count_of(text, "e lost "),
            "sessions were lost",
        )?;
    }
    if sees_all(text) {
        out.push_str("all events were seen\n")?;
    }
    Ok(out)
}

// Puts a line at the end that is the same in all runs, cut if it is long.
fn push_same(alloc: Global, out: &mut String, line: &str) -> Result<(), AllocError> {
    if !["phase ", "halted ", "nkctl: "]
        .iter()
        .any(|word| line.starts_with(word))
    {
        return Ok(());
    }
    match line.get(..WIDE) {
        None => out.push_str(line)?,
        Some(front) => {
            out.push_str(front)?;
            let rest = line.len() - WIDE;
            out.push_str(&format!(in alloc; ".. ({rest} bytes more)")?)?;
        }
    }
    out.push_str("\n")
}

// Says how many there were, if any were.
fn push_count(
    alloc: Global,
    out: &mut String,
    count: usize,
    words: &str,
) -> Result<(), AllocError> {
    if count == 0 {
        return Ok(());
    }
    out.push_str(&format!(in alloc; "{count} {words}\n")?)
}

// Whether the last line says that as many events were seen as the text has.
fn sees_all(text: &str) -> bool {
    let events = count_of(text, "e ");
    let mut words = text.lines().last().unwrap_or("").split(' ');
    words.next() == Some("seen")
        && words
            .next()
            .is_some_and(|count| count.parse() == Ok(events))
}
