//! Numbers in hexadecimal digits.
//!
//! Layer: the program; public. Called by `values` here, and by report_text.
ghost use Rattle.std.specs.Prelude.{◌≡◌, ◌/◌, ◌%◌, ◌++◌, ◌<◌, OnOk, codes, string_bytes};
ghost use Rattle.value_text.specs.Values.{hex_digit, hex_byte, hex_half, mac_text};

use crate::values::put_ascii;
use std::alloc::AllocError;

// A digit below 16.
fn hex_digit(digit: u8) -> u8
    requires { digit < 16 }
    ensures digit { result ≡ hex_digit digit }
    ensures ascii { result < 128 }
{
    if digit < 10 { 48 + digit } else { 87 + digit }
}

/// Puts the last byte of a number at the end, in two hexadecimal digits.
pub fn put_hex_byte(out: &mut String, number: u64) -> Result<(), AllocError>
    ensures { OnOk result (string_bytes out.new ≡ string_bytes out.old ++ hex_byte number) }
{
    put_ascii(out, high_digit(number))?;
    put_ascii(out, low_digit(number))
}

// Puts an Ethernet address at the end: one push for all of it, since a text can have a great many.
pub(crate) fn put_mac(out: &mut String, number: u64) -> Result<(), AllocError>
    ensures { OnOk result (string_bytes out.new ≡ string_bytes out.old ++ mac_text number) }
{
    let digits = mac_digits(number);
    // hexadecimal digits and colons are ASCII
    out.push_str(unsafe { str::from_utf8_unchecked(&digits) })
}

// An Ethernet address in hexadecimal digits and colons.
fn mac_digits(number: u64) -> [u8; 17]
    ensures { result ≡ mac_text number }
{
    let front = number / 16777216;
    [
        high_digit(front / 65536),
        low_digit(front / 65536),
        b':',
        high_digit(front / 256),
        low_digit(front / 256),
        b':',
        high_digit(front),
        low_digit(front),
        b':',
        high_digit(number / 65536),
        low_digit(number / 65536),
        b':',
        high_digit(number / 256),
        low_digit(number / 256),
        b':',
        high_digit(number),
        low_digit(number),
    ]
}

// The hexadecimal digits of the last byte of a number.
fn high_digit(number: u64) -> u8
    ensures digit { result ≡ hex_digit (number / 16 % 16) }
    ensures ascii { result < 128 }
{
    hex_digit((number / 16 % 16) as u8)
}

fn low_digit(number: u64) -> u8
    ensures digit { result ≡ hex_digit (number % 16) }
    ensures ascii { result < 128 }
{
    hex_digit((number % 16) as u8)
}

// Puts the last two bytes at the end in hexadecimal, after `0x`: one push, since tables have a great many.
pub(crate) fn put_hex_half(out: &mut String, number: u64) -> Result<(), AllocError>
    ensures { OnOk result (string_bytes out.new ≡ string_bytes out.old ++ (codes "0x" ++ hex_half number)) }
{
    let digits = half_digits(number);
    // hexadecimal digits and `x` are ASCII
    out.push_str(unsafe { str::from_utf8_unchecked(&digits) })
}

// The last two bytes in hexadecimal digits.
fn half_digits(number: u64) -> [u8; 6]
    ensures { result ≡ codes "0x" ++ hex_half number }
{
    [
        b'0',
        b'x',
        high_digit(number / 256),
        low_digit(number / 256),
        high_digit(number),
        low_digit(number),
    ]
}
