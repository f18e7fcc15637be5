//! Laws of command lines, each the contract of a call that does nothing.
//!
//! Layer: texts that are read; public. No crate here calls it.
ghost use Rattle.command_line.specs.Commands.{OneCommand};

/// Words ask for one command at most.
pub fn one_command()
    ensures { OneCommand }
{}
