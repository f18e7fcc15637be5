//! The values of fields, as they are written.
//!
//! Layer: texts that are read; public. Called by `operands` and `pair` here, and by document_text.
ghost use Rattle.std.specs.Prelude.{◌≡◌, ◌≤◌, ◌<◌, ◌==◌, length, drop, codes, nat_eq, is_some, IfSome};
ghost use Rattle.std.specs.Char.{is_ascii_digit};
ghost use Rattle.std.specs.List.{before_first, after_first, position_or_len, starts_with, list_all};
ghost use Rattle.netkat_parser.specs.Numbers.{numeral, byte_form, joined, address_form, number, IsUpTo, IsWritten};

use nk_values::{Field, Lit};

mod digits;

use digits::value;
pub use digits::{is_numeral, numeral};

/// The greatest number of any field.
pub const GREATEST: u64 = 0xffff_ffff_ffff;

/// A byte of an address: two hexadecimal digits, or 1 to 3 decimal digits up to 255.
#[derive(Clone, Copy, Debug, PartialEq, Eq)]
enum ByteForm {
    Pair,
    Octet,
}

impl ByteForm {
    fn read(self, digits: &[u8]) -> Option<u64>
        ensures value { result ≡ byte_form self digits.now }
        ensures small { IfSome result (λ n. n ≤ 255) }
    {
        match self {
            ByteForm::Pair => numeral(16, 2, 2, 255, digits),
            ByteForm::Octet => numeral(10, 1, 3, 255, digits),
        }
    }
}

/// The literal that a run writes for a field.
pub fn literal(field: Field, run: &[u8]) -> Option<Lit>
    ensures { IsWritten field run.now result }
{
    match number_of(field, run) {
        Some(n) => Lit::new(field, n),
        None => None,
    }
}

/// The number that a run writes for a field, if it is at most the greatest of any field.
pub fn number_of(field: Field, run: &[u8]) -> Option<u64>
    ensures { IsUpTo GREATEST (number field run.now) result }
{
    // Most numbers are decimal ones, and these are gone through once.
    if let Some(n) = numeral(10, 1, 20, GREATEST, run) {
        return Some(n);
    }
    match behind_0x(run) {
        Some(digits) => numeral(16, 1, 16, GREATEST, digits),
        None if is_decimal(run) => numeral(10, 1, 20, GREATEST, run),
        None => address(field, run),
    }
}

/// Whether a run has one of the field's forms, however great its number is.
pub fn has_form(field: Field, run: &[u8]) -> bool
    ensures { result ≡ is_some (number field run.now) }
{
    match behind_0x(run) {
        Some(digits) => is_numeral(16, 1, 16, digits),
        None if is_decimal(run) => is_numeral(10, 1, 20, run),
        None => address(field, run).is_some(),
    }
}

// What stands after `0x`.
fn behind_0x(run: &[u8]) -> Option<&[u8]>
    ensures some { IfSome result (λ digits. digits.now ≡ drop 2 run.now) }
    ensures stands { is_some result ≡ starts_with nat_eq run.now (codes "0x") }
{
    if run.starts_with(b"0x") {
        Some(&run[2..])
    } else {
        None
    }
}

fn is_decimal(run: &[u8]) -> bool
    ensures { result ≡ list_all is_ascii_digit run.now }
{
    run.iter().all(|byte| byte.is_ascii_digit())
}

fn address(field: Field, run: &[u8]) -> Option<u64>
    ensures { result ≡ address_form field run.now }
{
    match field {
        Field::EthSrc | Field::EthDst => joined(ByteForm::Pair, b':', 5, run),
        Field::Ip4Src | Field::Ip4Dst => joined(ByteForm::Octet, b'.', 3, run),
        _ => None,
    }
}

// The number in base 256 of `more` + 1 parts, joined by a sign.
fn joined(form: ByteForm, sign: u8, more: u32, text: &[u8]) -> Option<u64>
    requires { more ≤ 5 }
    ensures { result ≡ joined (byte_form form) sign more 0 text.now }
{
    let mut value = 0u64;
    let mut rest = text;
    for _byte in 0..more {
        let (first, after) = cut(rest, sign);
        let byte = form.read(first)?;
        value = 256 * value + byte;
        rest = after;
    }
    let byte = form.read(rest)?;
    Some(256 * value + byte)
}

/// What stands before the first such byte, and after it.
pub fn cut(text: &[u8], at: u8) -> (&[u8], &[u8])
    ensures before { result.0.now ≡ before_first (λ b. b == at) text.now }
    ensures after { result.1.now ≡ after_first (λ b. b == at) text.now }
{
    let end = index_of(text, at);
    if end < text.len() {
        (&text[..end], &text[end + 1..])
    } else {
        (text, &text[end..])
    }
}

/// The index of the first such byte, or the text's length.
pub fn index_of(text: &[u8], at: u8) -> usize
    ensures index { result ≡ position_or_len (λ b. b == at) text.now }
    ensures within { result ≤ length text.now }
{
    for (i, byte) in text.iter().enumerate() {
        if *byte == at {
            return i;
        }
    }
    text.len()
}
