//! Lines tell histories apart: laws, each the contract of a call that does nothing.
//!
//! Layer: laws alone. The root of the crate, which no code calls.
#![tactic(auto)]

ghost use Rattle.line_laws.specs.Laws.{NoneIsDropped, TextsTell, WalksHaveOwnLines};

/// Histories that begin with one packet, and whose packets are in range, have different texts.
pub fn texts_tell()
    ensures { TextsTell }
{}

/// If no history comes twice, each has a line of its own: no line is left out because an equal one stands there.
pub fn none_is_dropped()
    ensures { NoneIsDropped }
{}

/// Each finished history of a packet's walk has a line `done` of its own, and each one in flight a line `open`.
pub fn walks_have_own_lines()
    ensures { WalksHaveOwnLines }
{}
