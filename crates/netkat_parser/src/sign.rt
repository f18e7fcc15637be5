//! Signs: the tokens of a policy's text, but for values.
//!
//! Layer: texts that are read; public. Called by many modules here, and by document_text.
ghost use Rattle.std.specs.Prelude.{◌≡◌, ◌≤◌, length};
ghost use Rattle.std.specs.List.{prefix_len, find};
ghost use Rattle.std.specs.Str.{bytes_eq};
ghost use Rattle.std.specs.Char.{is_ascii_alphanumeric};
ghost use Rattle.nk_values.specs.Names.{name_of, all_fields};
ghost use Rattle.netkat_parser.specs.Signs.{is_blank, word, mark, is_becomes, sign, sign_len, is_run_byte};

use crate::run::run_len;
use nk_values::Field;

/// A token. `End` is the end of the text, `Unlisted` a name that is not listed, `Strange` a byte
/// that begins no token.
#[derive(Clone, Copy, Debug, PartialEq, Eq)]
pub enum Sign {
    Skip,
    Drop,
    Dup,
    Not,
    Name(Field),
    Equals,
    Becomes,
    Plus,
    Semicolon,
    Star,
    Open,
    Close,
    End,
    Unlisted,
    Strange,
}

/// The first sign of a text that begins with no blank. It has `len` bytes.
#[inline(always)]
pub fn first_sign(text: &[u8], len: usize) -> Sign
    requires len { len ≡ sign_len text.now }
    requires within { len ≤ length text.now }
    ensures { result ≡ sign text.now }
{
    let Some(first) = text.first() else {
        return Sign::End;
    };
    if first.is_ascii_alphabetic() {
        word(&text[..len])
    } else if is_becomes(text) {
        Sign::Becomes
    } else {
        mark(*first)
    }
}

/// A blank, a tab, CR or LF.
pub fn is_blank(byte: u8) -> bool
    ensures { result ≡ is_blank byte }
{
    matches!(byte, b' ' | b'\t' | b'\r' | b'\n')
}

/// A letter, a digit, `.` or `:`.
pub fn is_run_byte(byte: u8) -> bool
    ensures { result ≡ is_run_byte byte }
{
    byte.is_ascii_alphanumeric() || byte == b'.' || byte == b':'
}

/// How many bytes the first sign has.
#[inline(always)]
pub fn sign_len(text: &[u8]) -> usize
    ensures len { result ≡ sign_len text.now }
    ensures within { result ≤ length text.now }
{
    let Some(first) = text.first() else {
        return 0;
    };
    if first.is_ascii_alphabetic() {
        name_len(text)
    } else if is_becomes(text) {
        2
    } else {
        1
    }
}

fn is_becomes(text: &[u8]) -> bool
    ensures { result ≡ is_becomes text.now }
{
    text.len() >= 2 && text[0] == b':' && text[1] == b'='
}

// How many letters and digits stand at the front.
fn name_len(text: &[u8]) -> usize
    ensures len { result ≡ prefix_len is_ascii_alphanumeric text.now }
    ensures within { result ≤ length text.now }
{
    run_len(text, |byte| byte.is_ascii_alphanumeric())
}

fn mark(byte: u8) -> Sign
    ensures { result ≡ mark byte }
{
    match byte {
        b'+' => Sign::Plus,
        b';' => Sign::Semicolon,
        b'*' => Sign::Star,
        b'(' => Sign::Open,
        b')' => Sign::Close,
        b'=' => Sign::Equals,
        _ => Sign::Strange,
    }
}

fn word(name: &[u8]) -> Sign
    ensures { result ≡ word name.now }
{
    match name {
        b"skip" => Sign::Skip,
        b"drop" => Sign::Drop,
        b"dup" => Sign::Dup,
        b"not" => Sign::Not,
        b"sw" => Sign::Name(Field::Sw),
        b"pt" => Sign::Name(Field::Pt),
        b"ethTyp" => Sign::Name(Field::EthTyp),
        b"ipProto" => Sign::Name(Field::IpProto),
        b"ethSrc" => Sign::Name(Field::EthSrc),
        b"ethDst" => Sign::Name(Field::EthDst),
        b"ip4Src" => Sign::Name(Field::Ip4Src),
        b"ip4Dst" => Sign::Name(Field::Ip4Dst),
        b"tcpSrcPort" => Sign::Name(Field::TcpSrcPort),
        b"tcpDstPort" => Sign::Name(Field::TcpDstPort),
        _ => Sign::Unlisted,
    }
}
