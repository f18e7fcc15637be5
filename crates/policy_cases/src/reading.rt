//! Policies that are read and printed again. Faults are told by their line and column, number and name.
//!
//! In a policy `\n`, `\r` and `\t` stand for LF, CR and a tab. What is printed is read and printed once more, and has
//! to be the same. So has what is printed of a policy that comes byte by byte, and of one that is cut in two, at each
//! place.
//!
//! Layer: tests; private. Called by the root of the crate.
use netkat_parser::{ParseError, PolicyReader, parse_policy};
use nk_syntax::Pol;
use std::alloc::{AllocError, Global};

/// What is told of a policy: it as it is printed, or its first fault; and the first cut at which the answer is another
/// one.
pub fn answer(alloc: Global, line: &str) -> Result<String, AllocError> {
    let policy = unescaped(alloc, line)?;
    let answer = twice(alloc, &policy)?;
    match cut_otherwise(alloc, &policy, &answer)? {
        Some(other) => format!(in alloc; "{answer}\n{other}"),
        None => Ok(answer),
    }
}

// The policy with the bytes that `\n`, `\r` and `\t` stand for.
fn unescaped(alloc: Global, line: &str) -> Result<String, AllocError> {
    line.replace(alloc, "\\n", "\n")?
        .replace(alloc, "\\r", "\r")?
        .replace(alloc, "\\t", "\t")
}

// The answer to a policy, which is the same when what was printed is read again.
fn twice(alloc: Global, policy: &str) -> Result<String, AllocError> {
    let first = read(alloc, policy)?;
    if first
        .as_bytes()
        .first()
        .is_some_and(|byte| byte.is_ascii_digit())
    {
        return Ok(first);
    }
    let second = read(alloc, &first)?;
    if first == second {
        Ok(first)
    } else {
        format!(in alloc; "{first} is read as {second}")
    }
}

// What is answered otherwise to the policy in pieces.
fn cut_otherwise(alloc: Global, policy: &str, answer: &str) -> Result<Option<String>, AllocError> {
    for cut in 0..=policy.len() {
        let pieces = in_pieces(alloc, policy, cut)?;
        if pieces.as_str() != answer {
            return Ok(Some(format!(in alloc; "cut at {cut}: {pieces}")?));
        }
    }
    Ok(None)
}

// The answer to a policy that is cut in two at a place, or that comes byte by byte if the place is its end.
fn in_pieces(alloc: Global, policy: &str, cut: usize) -> Result<String, AllocError> {
    let mut reader = PolicyReader::new(alloc);
    let bytes = policy.as_bytes();
    if cut < bytes.len() {
        reader.feed(alloc, &bytes[..cut])?;
        reader.feed(alloc, &bytes[cut..])?;
    } else {
        for i in 0..bytes.len() {
            reader.feed(alloc, &bytes[i..i + 1])?;
        }
    }
    told(alloc, reader.finish(alloc))
}

// The answer to a policy.
fn read(alloc: Global, policy: &str) -> Result<String, AllocError> {
    told(alloc, parse_policy(alloc, policy.as_bytes()))
}

// A copy of the policy, printed, or the place of its fault, its number and its name.
fn told(alloc: Global, read: Result<Pol, ParseError>) -> Result<String, AllocError> {
    match read {
        Ok(pol) => pol.copy(alloc)?.print(alloc),
        Err(ParseError::Fault(it)) => format!(in alloc; "{}:{} {}", it.line, it.column, it.fault),
        Err(ParseError::Memory) => Err(AllocError),
    }
}
