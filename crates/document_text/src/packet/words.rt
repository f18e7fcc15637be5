//! The words of a packet line: a name and what it is given.
//!
//! Layer: texts that are read; private. Called by `packet`.
ghost use Rattle.std.specs.Prelude.{◌≡◌};
ghost use Rattle.std.specs.List.{find, list_all};
ghost use Rattle.std.specs.Char.{is_ascii_alphanumeric};
ghost use Rattle.netkat_parser.specs.Signs.{is_run_byte};
ghost use Rattle.std.specs.Str.{bytes_eq};
ghost use Rattle.nk_values.specs.Names.{name_of, header_fields};
ghost use Rattle.document_text.specs.Packets.{is_name, is_run, pair_of};
ghost use Rattle.document_text.specs.Answers.{Forms};

use crate::fault::Stop;
use crate::head::is_text;
use netkat_parser::{cut, is_run_byte};
use nk_values::{Field, TextFault};

// The two parts of `name=value`.
pub(super) fn pair_of(word: &[u8]) -> Result<(&[u8], &[u8]), Stop>
    ensures { Forms (λ p. (p.0.now, p.1.now)) (pair_of word.now) result }
{
    let (name, run) = cut(word, b'=');
    if is_name(name) && is_run(run) {
        Ok((name, run))
    } else {
        Err(Stop::Fault(TextFault::BadLine))
    }
}

// A letter, then letters and digits.
pub(super) fn is_name(text: &[u8]) -> bool
    ensures { result ≡ is_name text.now }
{
    !text.is_empty() && text[0].is_ascii_alphabetic() && are_alphanumeric(text)
}

fn are_alphanumeric(text: &[u8]) -> bool
    ensures { result ≡ list_all is_ascii_alphanumeric text.now }
{
    text.iter().all(|byte| byte.is_ascii_alphanumeric())
}

// Some letters, digits, `.` and `:`.
pub(super) fn is_run(text: &[u8]) -> bool
    ensures { result ≡ is_run text.now }
{
    text.len() >= 1 && are_run_bytes(text)
}

fn are_run_bytes(text: &[u8]) -> bool
    ensures { result ≡ list_all is_run_byte text.now }
{
    text.iter().all(|byte| is_run_byte(*byte))
}

// The header field of a name.
pub(super) fn header_field(name: &[u8]) -> Option<Field>
    ensures { result ≡ find (λ f. bytes_eq name.now (name_of f)) header_fields }
{
    Field::HEADER
        .iter()
        .copied()
        .find(|field| is_text(name, field.name()))
}
