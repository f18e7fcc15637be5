//! Lines that stand for many.
//!
//! Layer: tests; private. Called by `case`.
use std::alloc::{AllocError, Global};

/// Puts a line at the end: as it is, or what it stands for.
pub fn push_expanded(alloc: Global, out: &mut String, line: &str) -> Result<(), AllocError> {
    if let Some((count, text)) = repetition(line, "%") {
        return push_lines(alloc, out, count, text);
    }
    if let Some((count, text)) = repetition(line, "~") {
        return push_times(out, count, text);
    }
    out.push_str(line)?;
    out.push_str("\n")
}

// How often a line's text stands, where the line begins with this sign and a number.
fn repetition<'a>(line: &'a str, sign: &str) -> Option<(u64, &'a str)> {
    let (count, text) = line.strip_prefix(sign)?.split_once(" ")?;
    Some((count.parse::<u64>().ok()?, text))
}

// So many lines, with their numbers.
fn push_lines(alloc: Global, out: &mut String, count: u64, text: &str) -> Result<(), AllocError> {
    for place in 0..count {
        let number = place + 1;
        let next = number.saturating_add(1);
        let line = text
            .replace(alloc, "{}", &number.to_string(alloc)?)?
            .replace(alloc, "{+}", &next.to_string(alloc)?)?;
        out.push_str(&line)?;
        out.push_str("\n")?;
    }
    Ok(())
}

// The text, repeated.
fn push_times(out: &mut String, count: u64, text: &str) -> Result<(), AllocError> {
    for _ in 0..count {
        out.push_str(text)?;
    }
    Ok(())
}
