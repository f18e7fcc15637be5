//! Numerals: digits of a base, and the number that they write.
//!
//! Layer: texts that are read; public. Called by `number` here, and by command_line and document_text.
ghost use Rattle.std.specs.Prelude.{◌≡◌, ◌≤◌, ◌<◌, false, is_some, IfSome, IfNone};
ghost use Rattle.std.specs.Char.{is_digit, digit_value};
ghost use Rattle.netkat_parser.specs.Numbers.{digits_form, numeral, at_most, number};

use super::GREATEST;

/// Whether these are `least` to `most` digits in a base.
pub fn is_numeral(base: u64, least: usize, most: usize, digits: &[u8]) -> bool
    requires base { 2 ≤ base }
    requires hexadecimal { base ≤ 16 }
    ensures { result ≡ is_some (numeral base least most digits.now) }
{
    digits.len() >= least && digits.len() <= most && are_digits(base, digits)
}

fn are_digits(base: u64, digits: &[u8]) -> bool
    requires base { 2 ≤ base }
    requires hexadecimal { base ≤ 16 }
    ensures { result ≡ is_some (digits_form base digits.now) }
{
    for byte in digits {
        if digit(base, *byte).is_none() {
            return false;
        }
    }
    true
}

/// The number of `least` to `most` digits in a base, if it is at most `high`.
pub fn numeral(base: u64, least: usize, most: usize, high: u64, digits: &[u8]) -> Option<u64>
    requires base { 2 ≤ base }
    requires hexadecimal { base ≤ 16 }
    requires high { high ≤ GREATEST }
    ensures value { result ≡ at_most high (numeral base least most digits.now) }
    ensures small { IfSome result (λ n. n ≤ high) }
{
    if digits.len() < least || digits.len() > most {
        return None;
    }
    value(base, high, digits)
}

// The number of digits in a base, if it is at most `high`.
#[tactic(auto, using(crate::proofs::Digits::counting))]
pub(super) fn value(base: u64, high: u64, digits: &[u8]) -> Option<u64>
    requires base { 2 ≤ base }
    requires hexadecimal { base ≤ 16 }
    requires high { high ≤ GREATEST }
    ensures value { result ≡ at_most high (digits_form base digits.now) }
    ensures small { IfSome result (λ n. n ≤ high) }
{
    let mut n = 0u64;
    for byte in digits {
        let next = digit(base, *byte)?;
        n = n * base + next;
        if n > high {
            return None;
        }
    }
    Some(n)
}

// The value of a digit in a base.
fn digit(base: u64, byte: u8) -> Option<u64>
    requires base { 2 ≤ base }
    requires hexadecimal { base ≤ 16 }
    ensures some { IfSome result (λ d. (digit_value byte < base) × (d ≡ digit_value byte)) }
    ensures none { IfNone result (is_digit byte base ≡ false) }
{
    match char::from(byte).to_digit(base as u32) {
        Some(value) => Some(u64::from(value)),
        None => None,
    }
}
