//! What becomes of a message on a link, as words.
//!
//! Layer: tests; private. Called by `case`.
use outside_net::{Effect, End, Trouble};
use std::alloc::{AllocError, Global};

// A number after a word, and what stands after it.
fn number_after<'a>(words: &'a str, word: &str) -> Option<(u64, &'a str)> {
    let (number, rest) = words.strip_prefix(word)?.split_once(" ")?;
    Some((number.trim_end_matches(":").parse::<u64>().ok()?, rest))
}

/// The trouble of `link 2: message 3 from the switch comes twice` and the like. The first link is 1.
pub fn trouble_of(alloc: Global, part: &str) -> Result<Option<Trouble>, AllocError> {
    let Some((link, rest)) = number_after(part, "link ") else {
        return Ok(None);
    };
    let Some((message, rest)) = number_after(rest, "message ") else {
        return Ok(None);
    };
    let (end, words) = match rest.strip_prefix("from the switch ") {
        Some(words) => (End::Second, words),
        None => (
            End::First,
            rest.strip_prefix("to the switch ").unwrap_or(""),
        ),
    };
    let name = u32::try_from(link.saturating_sub(1)).unwrap_or(0);
    let effect = effect_of(alloc, words)?;
    Ok(Some(Trouble::Send(name, end, message, effect)))
}

// What becomes of it.
fn effect_of(alloc: Global, words: &str) -> Result<Effect, AllocError> {
    if words == "comes twice" {
        return Ok(Effect::Repeats);
    }
    if let Some(bytes) = words.strip_prefix("is cut to ") {
        return Ok(Effect::Cuts(bytes_of(alloc, bytes)?));
    }
    match words.strip_prefix("is ") {
        Some(bytes) => Ok(Effect::Replaces(bytes_of(alloc, bytes)?)),
        None => Ok(Effect::Fails),
    }
}

// The bytes of `0113 and 4 zeros`.
fn bytes_of(alloc: Global, words: &str) -> Result<Vec<u8>, AllocError> {
    let (digits, zeros) = words.split_once(" and ").unwrap_or((words, ""));
    let count = zeros.strip_suffix(" zeros").unwrap_or("0");
    let mut bytes = Vec::new(alloc);
    push_digits(&mut bytes, digits)?;
    for _ in 0..count.parse::<u32>().unwrap_or(0) {
        bytes.push(0)?;
    }
    Ok(bytes)
}

// Puts the bytes of hexadecimal digits at the end.
fn push_digits(bytes: &mut Vec<u8>, digits: &str) -> Result<(), AllocError> {
    for place in 0..digits.len() / 2 {
        let pair = digits.get(2 * place..2 * place + 2).unwrap_or("");
        bytes.push(u8::from_str_radix(pair, 16).unwrap_or(0))?;
    }
    Ok(())
}
