//! The form of a command line, as `clap` reads it.
//!
//! Layer: texts that are read; private. Called by `reading`.
ghost use Rattle.std.specs.Prelude.{◌≡◌, IfOk};
ghost use Rattle.clap.specs.Simple.{new_app, with_rule};
ghost use Rattle.clap.specs.Words.{app_of};
ghost use Rattle.command_line.specs.Form.{IsLocal, form, one};

use clap::{Arg, Command};
use std::alloc::{AllocError, Global};

/// The program with one level of subcommands, two of which take a number. There is no help: its words are no command
/// line.
pub fn form<'a>(alloc: Global) -> Result<Command<'a>, AllocError>
    ensures { IfOk result (λ c. app_of c ≡ form) }
{
    let generate = taking(alloc, "generate", "number")?;
    let drive = taking(alloc, "drive", "base")?;
    Command::new(alloc, "nkctl")
        .disable_help_flag(true)
        .disable_help_subcommand(true)
        .subcommand(Command::new(alloc, "rules"))?
        .subcommand(Command::new(alloc, "trace"))?
        .subcommand(Command::new(alloc, "simulate"))?
        .subcommand(Command::new(alloc, "equiv"))?
        .subcommand(Command::new(alloc, "audit"))?
        .subcommand(Command::new(alloc, "run"))?
        .subcommand(Command::new(alloc, "watch"))?
        .subcommand(generate)?
        .subcommand(drive)
}

// A subcommand that takes one word.
fn taking<'a>(alloc: Global, name: &'a str, word: &'a str) -> Result<Command<'a>, AllocError>
    ensures app { IfOk result (λ c. app_of c ≡ with_rule (new_app name.now) (one word.now)) }
    ensures local { IfOk result IsLocal }
{
    let arg = Arg::new(alloc, word).required(true);
    Command::new(alloc, name).arg(arg)
}
