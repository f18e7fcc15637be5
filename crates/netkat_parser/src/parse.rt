//! From a text to its policy, or to its first fault and where that is.
//!
//! Layer: texts that are read; public. Called by `reader` here, and by many crates.
ghost use Rattle.std.specs.Prelude.{◌≡◌, ◌⊎◌, ◌+◌, ◌-◌, ◌<◌, ◌^◌, length, IfOk, IfErr, IsErrAnd, MatchResult};
ghost use Rattle.nk_syntax.specs.Terms.{Term};
ghost use Rattle.nk_syntax.specs.Views.{term_of};
ghost use Rattle.netkat_parser.specs.Grammar.{IsText};
ghost use Rattle.netkat_parser.specs.Places.{position_after, HasFault, text_start};
ghost use Rattle.netkat_parser.specs.declared.fault.ParseError.{ParseError as Error};
ghost use Rattle.netkat_parser.specs.declared.fault.ParseFault.{ParseFault as Located};

use crate::fault::{ParseError, Position};
use crate::feeding::PolicyReader;
use crate::token::behind;
use memchr::memchr;
use nk_syntax::Pol;
use std::alloc::Global;

/// Reads a whole text as a policy, or tells its first fault. Lines and columns count from 1,
/// columns in bytes. Blanks, tabs, CR, LF and comments, from `#` to the end of the line, may stand
/// between tokens.
///
/// ```text
/// policy   = sequence { "+" sequence }
/// sequence = unary { ";" unary }
/// unary    = "not" unary | atom [ "*" ]
/// atom     = "skip" | "drop" | "dup" | field "=" value | field ":=" value | "(" policy ")"
/// ```
///
/// A value is 1 to 20 decimal digits, or `0x` and 1 to 16 hexadecimal ones. For ethSrc and ethDst it may also be six
/// pairs of hexadecimal digits joined by `:`, and for ip4Src and ip4Dst four numbers of 1 to 3 digits, each at most
/// 255, joined by `.`.
pub fn parse_policy(alloc: Global, text: &[u8]) -> Result<Pol, ParseError>
    ensures read { IfOk result (λ pol. IsText text.now (term_of pol)) }
    ensures fault { (f : Located) → result ≡ Err (ParseError.Fault f) → HasFault text_start text.now f }

    // Both the other way round: unless memory runs out, what has a reading is read as it, and a
    // text with a fault is refused with it.
    ensures each_read { (p : Term) → IsText text.now p →
        MatchResult result (λ pol. term_of pol ≡ p) (λ e. e ≡ ParseError.Memory) }
    ensures each_fault { (f : Located) → HasFault text_start text.now f →
        IsErrAnd result (λ e. (e ≡ ParseError.Fault f) ⊎ (e ≡ ParseError.Memory)) }
{
    parse_policy_at(alloc, text, Position { line: 1, column: 1 })
}

/// The same of a text that begins at a position of a larger one. A fault at the end of the text has
/// the position after its last byte.
pub fn parse_policy_at(alloc: Global, text: &[u8], begin: Position) -> Result<Pol, ParseError>
    requires lines { begin.line + length text.now < 2 ^ 64 }
    requires columns { begin.column + length text.now < 2 ^ 64 }
    ensures read { IfOk result (λ pol. IsText text.now (term_of pol)) }
    ensures fault { (f : Located) → result ≡ Err (ParseError.Fault f) → HasFault begin text.now f }
    ensures each_read { (p : Term) → IsText text.now p →
        MatchResult result (λ pol. term_of pol ≡ p) (λ e. e ≡ ParseError.Memory) }
    ensures each_fault { (f : Located) → HasFault begin text.now f →
        IsErrAnd result (λ e. (e ≡ ParseError.Fault f) ⊎ (e ≡ ParseError.Memory)) }
{
    let mut reader = PolicyReader::starting(alloc, begin);
    reader.feed(alloc, text)?;
    reader.finish(alloc)
}

/// The position after a text that begins at a position.
pub fn position_after(begin: Position, front: &[u8]) -> Position
    requires lines { begin.line + length front.now < 2 ^ 64 }
    requires columns { begin.column + length front.now < 2 ^ 64 }
    ensures { result ≡ position_after begin front.now }
{
    let mut position = begin;
    let mut rest = front;
    while let Some(at) = memchr(b'\n', rest) {
        position = Position {
            line: position.line + 1,
            column: 1,
        };
        rest = behind(rest, at + 1);
    }
    Position {
        line: position.line,
        column: position.column + rest.len() as u64,
    }
}
