//! The texts of numbers in decimal. Texts of values, and reports, put them.
//!
//! Layer: the program; public. Called by `patterns`, `rules` and `values` here, and by report_text.
ghost use Rattle.std.specs.Prelude.{◌≡◌, ◌+◌, ◌/◌, ◌%◌, ◌++◌, ◌<◌, ◌≤◌, ◌∷◌, [], OnOk, string_bytes, decimal};

use crate::values::put_ascii;
use std::alloc::AllocError;

/// Puts a number in decimal at the end: two digits by one push, since reports and tables have a great many.
pub fn put_number(out: &mut String, number: u64) -> Result<(), AllocError>
    ensures { OnOk result (string_bytes out.new ≡ string_bytes out.old ++ decimal number) }
{
    if number < 10 {
        return put_digit(out, number);
    }
    if number < 100 {
        return put_pair(out, number);
    }
    put_number(out, number / 100)?;
    put_pair(out, number % 100)
}

/// Puts a number in decimal at the end, and an ASCII character after it.
pub(crate) fn put_number_and(out: &mut String, number: u64, after: u8) -> Result<(), AllocError>
    requires { after < 128 }
    ensures { OnOk result (string_bytes out.new ≡ string_bytes out.old ++ (decimal number ++ after ∷ [])) }
{
    if number < 10 {
        return put_digit_and(out, number, after);
    }
    if number < 100 {
        return put_pair_and(out, number, after);
    }
    put_number(out, number / 100)?;
    put_pair_and(out, number % 100, after)
}

// Puts a digit and a character at the end.
fn put_digit_and(out: &mut String, digit: u64, after: u8) -> Result<(), AllocError>
    requires digit { digit < 10 }
    requires ascii { after < 128 }
    ensures { OnOk result (string_bytes out.new ≡ string_bytes out.old ++ (48 + digit) ∷ after ∷ []) }
{
    let bytes = [48 + digit as u8, after];
    // all are ASCII
    out.push_str(unsafe { str::from_utf8_unchecked(&bytes) })
}

// Puts two digits and a character at the end.
fn put_pair_and(out: &mut String, number: u64, after: u8) -> Result<(), AllocError>
    requires digits { number < 100 }
    requires ascii { after < 128 }
    ensures { OnOk result
        (string_bytes out.new ≡ string_bytes out.old ++ (48 + number / 10) ∷ (48 + number % 10) ∷ after ∷ []) }
{
    let bytes = [48 + (number / 10) as u8, 48 + (number % 10) as u8, after];
    // all are ASCII
    out.push_str(unsafe { str::from_utf8_unchecked(&bytes) })
}

// Puts two digits at the end.
fn put_pair(out: &mut String, number: u64) -> Result<(), AllocError>
    requires { number < 100 }
    ensures { OnOk result
        (string_bytes out.new ≡ string_bytes out.old ++ (48 + number / 10) ∷ (48 + number % 10) ∷ []) }
{
    let digits = pair_digits(number);
    // decimal digits are ASCII
    out.push_str(unsafe { str::from_utf8_unchecked(&digits) })
}

// The digits of a number of two.
fn pair_digits(number: u64) -> [u8; 2]
    requires { number < 100 }
    ensures { result ≡ (48 + number / 10) ∷ (48 + number % 10) ∷ [] }
{
    [48 + (number / 10) as u8, 48 + (number % 10) as u8]
}

fn put_digit(out: &mut String, digit: u64) -> Result<(), AllocError>
    requires { digit < 10 }
    ensures { OnOk result (string_bytes out.new ≡ string_bytes out.old ++ (48 + digit) ∷ []) }
{
    put_ascii(out, 48 + digit as u8)
}
