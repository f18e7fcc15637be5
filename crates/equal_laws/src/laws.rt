//! Histories of policies that answer well-shaped packets alike, each law the contract of a call that does nothing.
//!
//! Layer: laws alone; public. No crate here calls it.
ghost use Rattle.equal_laws.specs.Equals.{AlikeCompleteAlike, AlikeOpenAlike};

/// Plain policies that answer well-shaped packets alike give them the same complete histories in each topology
/// (POPL 2014, section 3).
pub fn alike_complete_alike()
    ensures { AlikeCompleteAlike }
{}

/// They give them the same open histories after each number of hops.
pub fn alike_open_alike()
    ensures { AlikeOpenAlike }
{}
