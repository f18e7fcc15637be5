//! Signs and runs at the front of a text that may go on.
//!
//! Layer: texts that are read; private. Called by many modules.
ghost use Rattle.std.specs.Prelude.{◌≡◌, ◌≤◌, false, length, drop, IfSome, IfNone};
ghost use Rattle.std.specs.Bool.{OnTrue};
ghost use Rattle.netkat_parser.specs.Signs.{ahead, sign_len};
ghost use Rattle.netkat_parser.specs.Cuts.{comment_behind, is_cut, IsSignAt, IsRunAt};

use crate::run::run_len;
use crate::sign::{Sign, first_sign, is_blank, is_run_byte, sign_len};

/// The text from a position on.
pub fn behind(text: &[u8], at: usize) -> &[u8]
    requires { at ≤ length text.now }
    ensures { result.now ≡ drop at text.now }
{
    &text[at..]
}

/// How many bytes stand in front of the next sign, and whether a comment goes on after them.
pub fn skip(in_comment: bool, text: &[u8]) -> (usize, bool)
    ensures within { result.0 ≤ length text.now }
    ensures rest { drop result.0 text.now ≡ ahead in_comment text.now }
    ensures comment { result.1 ≡ comment_behind in_comment text.now }
{
    if !in_comment && is_ahead(text) {
        return (0, false);
    }
    let mut in_comment = in_comment;
    for (i, byte) in text.iter().enumerate() {
        if in_comment {
            in_comment = *byte != b'\n';
        } else if *byte == b'#' {
            in_comment = true;
        } else if !is_blank(*byte) {
            return (i, false);
        }
    }
    (text.len(), in_comment)
}

// Whether a text begins with a byte that is no blank and begins no comment: all of these are at most `#`.
fn is_ahead(text: &[u8]) -> bool
    ensures rest { OnTrue result (ahead false text.now ≡ text.now) }
    ensures comment { OnTrue result (comment_behind false text.now ≡ false) }
{
    match text.first() {
        Some(first) => *first > b'#',
        None => false,
    }
}

/// The first sign of a text and how many bytes it has, unless what follows the text may change it.
#[inline(always)]
pub fn sign_at(text: &[u8], end: bool) -> Option<(Sign, usize)>
    ensures whole { IfSome result (λ x. IsSignAt text.now end x.0 x.1) }
    ensures cut { IfNone result (end ≡ false) }
{
    let len = sign_len(text);
    if !end && is_cut(text, len) {
        return None;
    }
    Some((first_sign(text, len), len))
}

// Whether what follows the text may change its first sign, which has `len` bytes.
fn is_cut(text: &[u8], len: usize) -> bool
    requires { len ≡ sign_len text.now }
    ensures { result ≡ is_cut text.now }
{
    if len < text.len() {
        return false;
    }
    let Some(first) = text.first() else {
        return true;
    };
    if first.is_ascii_alphabetic() {
        len == text.len()
    } else {
        *first == b':' && text.len() == 1
    }
}

/// How many bytes of a run stand at the front, unless what follows the text may change it.
pub fn run_at(text: &[u8], end: bool) -> Option<usize>
    ensures whole { IfSome result (λ n. IsRunAt text.now end n) }
    ensures cut { IfNone result (end ≡ false) }
{
    let len = run_len(text, is_run_byte);
    if !end && len == text.len() {
        return None;
    }
    Some(len)
}
