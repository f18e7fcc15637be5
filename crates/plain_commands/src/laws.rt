//! Laws of simulations, each the contract of a call that does nothing.
//!
//! Layer: the program; public. Called by controller_program.
ghost use Rattle.plain_commands.specs.Simulate.{NotBoth, OneReport, OneStop};

/// What a schedule comes to is decided by the document and the rows of its policies: it has one report and one way
/// to end, or it stops at one line.
pub fn one_simulation()
    ensures report { OneReport }
    ensures stop { OneStop }
    ensures either { NotBoth }
{}
