//! A sign that has no place.
//!
//! Layer: texts that are read; private. Called by `operands`, `operators` and `reading`.
ghost use Rattle.std.specs.Prelude.{◌≡◌};
ghost use Rattle.netkat_parser.specs.Grammar.{stray};

use crate::sign::Sign;
use nk_values::TextFault;

/// How many brackets and nots may be open.
pub const MOST_OPEN: usize = 200;

/// The fault of a sign where the grammar has no place for it.
pub fn stray(depth: usize, sign: Sign) -> TextFault
    ensures { result ≡ stray depth sign }
{
    match sign {
        Sign::Strange => TextFault::BadChar,
        Sign::Unlisted => TextFault::UnknownName,
        Sign::Open | Sign::Not if depth >= MOST_OPEN => TextFault::TooDeep,
        _ => TextFault::Unexpected,
    }
}
