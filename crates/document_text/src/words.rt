//! From bytes to lines, words and numbers.
//!
//! Layer: texts that are read; private. Called by many modules.
ghost use Rattle.std.specs.Prelude.{◌≡◌, ◌≢◌, ◌≤◌, ◌<◌, ℕ, false, List, [], ◌∷◌, ◌++◌, length, filter, IfOk, IfSome};
ghost use Rattle.std.specs.Prelude.{IfNone};
ghost use Rattle.std.specs.Bool.{OnTrue};
ghost use Rattle.document_text.specs.Texts.{first_len, is_over, content, is_blank, is_filled, words_of, is_end};
ghost use Rattle.document_text.specs.Texts.{numeral, numerals, end_of};
ghost use Rattle.document_text.specs.Feeding.{IsPiece, differs, is_other};
ghost use Rattle.std.specs.List.{position_or_len, prefix_len, list_all};
ghost use Rattle.document_text.specs.Answers.{texts, Forms};

use crate::fault::Stop;
use crate::head::is_text;
use memchr::memchr;
use netkat_parser::{GREATEST, cut, numeral as parsed, run_len};
use nk_values::TextFault;
use std::alloc::{AllocError, Global};

/// How many bytes the first line has, with the LF that ends it, or none if there is no LF.
pub fn line_end(text: &[u8]) -> Option<usize>
    ensures some { IfSome result
        (λ n. (0 < n) × (n ≤ length text.now) × ((rest : List ℕ) → first_len (text.now ++ rest) ≡ n)) }
    ensures none { IfNone result (IsPiece text.now) }
{
    match memchr(b'\n', text) {
        Some(at) => Some(at + 1),
        None => None,
    }
}

/// The words of a line.
pub fn words<'a>(alloc: Global, line: &'a [u8]) -> Result<Vec<&'a [u8]>, AllocError>
    ensures { IfOk result (λ all. texts all.items ≡ words_of line.now) }
{
    let mut all = Vec::new(alloc);
    let mut rest = content(line);
    loop {
        let end = piece_len(rest);
        all = with_word(all, &rest[..end])?;
        if end >= rest.len() {
            return Ok(all);
        }
        rest = &rest[end + 1..];
    }
}

// The words with a piece after them, if it has some byte.
fn with_word<'a>(all: Vec<&'a [u8]>, piece: &'a [u8]) -> Result<Vec<&'a [u8]>, AllocError>
    ensures { IfOk result (λ new. texts new.items ≡ texts all.entry.items ++ filter is_filled (piece.now ∷ [])) }
{
    let mut all = all;
    if !piece.is_empty() {
        all.push(piece)?;
    }
    Ok(all)
}

// What counts of a line.
fn content(line: &[u8]) -> &[u8]
    ensures content { result.now ≡ content line.now }
    ensures shorter { length result.now ≤ length line.now }
{
    for i in 0..line.len() {
        if is_over(&line[i..]) {
            return &line[..i];
        }
    }
    line
}

// Whether nothing of a line counts from here on.
fn is_over(rest: &[u8]) -> bool
    ensures { result ≡ is_over rest.now }
{
    match rest.first() {
        Some(first) => *first == b'#' || is_text(rest, "\n") || is_text(rest, "\r\n"),
        None => true,
    }
}

// How many bytes stand before the first blank.
fn piece_len(text: &[u8]) -> usize
    ensures len { result ≡ position_or_len is_blank text.now }
    ensures within { result ≤ length text.now }
{
    run_len(text, |byte| !is_blank(byte))
}

// How many blanks stand at the front.
fn blank_len(text: &[u8]) -> usize
    ensures len { result ≡ prefix_len is_blank text.now }
    ensures within { result ≤ length text.now }
{
    run_len(text, is_blank)
}

fn are_blank(text: &[u8]) -> bool
    ensures { result ≡ list_all is_blank text.now }
{
    text.iter().all(|byte| is_blank(*byte))
}

fn is_blank(byte: u8) -> bool
    ensures { result ≡ is_blank byte }
{
    byte == b' ' || byte == b'\t'
}

/// Whether the words are `end` alone.
pub fn is_end(words: &[&[u8]]) -> bool
    ensures { result ≡ is_end (texts words.now) }
{
    match words {
        [word] => is_text(word, "end"),
        _ => false,
    }
}

/// Whether the one word of a line is `end`. The line is not cut into words.
pub fn is_end_line(line: &[u8]) -> bool
    ensures { result ≡ is_end (words_of line.now) }
{
    if is_no_end(line) {
        return false;
    }
    let content = content(line);
    let rest = &content[blank_len(content)..];
    let end = piece_len(rest);
    is_text(&rest[..end], "end") && are_blank(&rest[end..])
}

/// Whether a line that begins so has another word than `end`, however it goes on.
pub fn is_no_end(text: &[u8]) -> bool
    ensures { OnTrue result ((text.now ≢ []) × ((rest : List ℕ) → is_end (words_of (text.now ++ rest)) ≡ false)) }
{
    is_other(&text[blank_len(text)..])
}

// Whether some of the first three bytes is none of `end`.
fn is_other(word: &[u8]) -> bool
    ensures { result ≡ is_other word.now }
{
    differs(word, 0, b'e') || differs(word, 1, b'n') || differs(word, 2, b'd')
}

// Whether another byte than this one stands there.
fn differs(word: &[u8], place: usize, byte: u8) -> bool
    ensures { result ≡ differs word.now place byte }
{
    place < word.len() && word[place] != byte
}

/// The number that 1 to 10 decimal digits write.
#[tactic(auto, using(crate::proofs::Numerals::small))]
pub fn numeral(word: &[u8]) -> Option<u64>
    ensures { result ≡ numeral word.now }
{
    parsed(10, 1, 10, GREATEST, word)
}

/// A number that has to be there.
pub fn number(word: &[u8]) -> Result<u64, Stop>
    ensures { Forms (λ n. n) (numeral word.now) result }
{
    match numeral(word) {
        Some(number) => Ok(number),
        None => Err(Stop::Fault(TextFault::BadLine)),
    }
}

/// Numbers that have to be there.
pub fn numbers(alloc: Global, words: &[&[u8]]) -> Result<Vec<u64>, Stop>
    ensures { Forms (λ v. v.items) (numerals (texts words.now)) result }
{
    let mut all = Vec::new(alloc);
    for word in words {
        match numeral(word) {
            Some(number) => all.push(number)?,
            None => return Err(Stop::Fault(TextFault::BadLine)),
        }
    }
    Ok(all)
}

/// A switch and a port, joined by `:`.
pub fn end_of(word: &[u8]) -> Result<(u64, u64), Stop>
    ensures { Forms (λ x. x) (end_of word.now) result }
{
    let (switch, port) = cut(word, b':');
    let sw = number(switch)?;
    let pt = number(port)?;
    Ok((sw, pt))
}
