//! The words of a command line.
//!
//! Layer: texts that are read; public. Called by controller_program.
ghost use Rattle.std.specs.Prelude.{◌≡◌, IfOk, IfSome, IfNone, All, IsTrue, ◌↔◌, option_and_then};
ghost use Rattle.clap.specs.Words.{first_of, subcommand_rows_of};
ghost use Rattle.command_line.specs.Commands.{Asks, IsCommandLine, IsPlain, base_port, workload_number};
ghost use Rattle.command_line.specs.Form.{asked_by};

use crate::asking::form;
use crate::command::Command;
use clap::ArgMatches;
use clap::error::ErrorKind;
use netkat_parser::numeral;
use std::alloc::{AllocError, Global};

/// What the words ask for, if they are a command line: the program's name and the word of a command, and after
/// `generate` or `drive` a number.
pub fn asked<'a>(alloc: Global, words: &'a [String]) -> Result<Option<Command>, AllocError>
    ensures some { IfOk result (λ r. IfSome r (λ c. Asks c words.now)) }
    ensures none { IfOk result (λ r. IfNone r (¬ (IsCommandLine words.now))) }
{
    if words.is_empty() {
        return Ok(None);
    }
    if !are_plain(&words[1..]) {
        return Ok(None);
    }
    match form(alloc)?.try_get_matches_from(words) {
        Ok(matches) => Ok(command_of(&matches)),
        Err(error) if error.kind() == ErrorKind::OutOfMemory => Err(AllocError),
        Err(_) => Ok(None),
    }
}

// Whether none of the words begins with a dash.
fn are_plain(words: &[String]) -> bool
    ensures { IsTrue result ↔ All IsPlain words.now }
{
    words.iter().all(|word| !word.starts_with("-"))
}

// What was asked for, by the subcommand that the words name.
fn command_of(matches: &ArgMatches) -> Option<Command>
    ensures { result ≡ option_and_then asked_by (subcommand_rows_of matches.now) }
{
    let (name, inner) = matches.subcommand()?;
    match name {
        "rules" => Some(Command::Rules),
        "trace" => Some(Command::Trace),
        "simulate" => Some(Command::Simulate),
        "equiv" => Some(Command::Equiv),
        "audit" => Some(Command::Audit),
        "run" => Some(Command::Run),
        "watch" => Some(Command::Watch),
        "generate" => number_of(inner.get_str("number")?).map(Command::Generate),
        "drive" => base_of(inner.get_str("base")?).map(Command::Drive),
        _ => None,
    }
}

// The number of a workload: 1 to 4 decimal digits, from 1 to 1,000.
fn number_of(word: &str) -> Option<u64>
    ensures { result ≡ workload_number word.now }
{
    match numeral(10, 1, 4, 1000, word.as_bytes()) {
        Some(0) => None,
        number => number,
    }
}

// The first port of a drive: 1 to 5 decimal digits, from 1,024 to 65,000.
fn base_of(word: &str) -> Option<u16>
    ensures { result ≡ base_port word.now }
{
    match numeral(10, 1, 5, 65000, word.as_bytes()) {
        Some(number) if number >= 1024 => Some(number as u16),
        _ => None,
    }
}
