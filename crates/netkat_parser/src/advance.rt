//! Reading goes on over a text that may go on.
//!
//! Layer: texts that are read; private. Called by `reader`.
ghost use Rattle.std.specs.Prelude.{◌≡◌, ◌≤◌, ◌++◌, ℕ, List, length, IfSome, IfNone};
ghost use Rattle.netkat_parser.specs.declared.stage.Stage.TheVariants as stage;
ghost use Rattle.netkat_parser.specs.Cuts.{EndsAt};
ghost use Rattle.netkat_parser.specs.Views.{view_of, HasNoRun};
ghost use Rattle.netkat_parser.specs.Standing.{Steps, Advances};

use crate::reading::{Halt, Reading};
use crate::sign::Sign;
use crate::stage::{Operator, Stage};
use crate::token::{behind, run_at, sign_at, skip};
use nk_values::Field;
use std::alloc::Global;

/// Why reading does not go on: more of the text is awaited, or a sign is not taken.
#[derive(Clone, Copy, Debug)]
pub enum Pause {
    Wait,
    Halt(Halt),
}

/// Takes what is whole of a text, at whose end nothing or anything may follow, and tells how many bytes
/// that were, whether a comment goes on after them, and why it stops there.
pub fn advance(
    reading: &mut Reading,
    alloc: Global,
    in_comment: bool,
    text: &[u8],
    end: bool,
) -> (usize, bool, Pause)
    ensures within { result.0 ≤ length text.now }
    ensures goes { Advances (view_of reading.old) in_comment text.now end (view_of reading.new) result.0 result.1
        result.2 }
{
    let mut at = 0;
    let mut comment = in_comment;
    loop {
        let (blanks, still) = skip(comment, behind(text, at));
        at += blanks;
        comment = still;
        match step(reading, alloc, behind(text, at), end) {
            Ok(len) => {
                at += len;
                comment = false;
            }
            Err(pause) => return (at, comment, pause),
        }
    }
}

// Takes a pair with the sign after it, or one sign, or one value.
fn step(reading: &mut Reading, alloc: Global, text: &[u8], end: bool) -> Result<usize, Pause>
    ensures { Steps (view_of reading.old) text.now end (view_of reading.new) result }
{
    match reading.pair(alloc, text) {
        Some(len) => Ok(len),
        None => token_step(reading, alloc, text, end),
    }
}

// Takes one sign, or one value.
fn token_step(reading: &mut Reading, alloc: Global, text: &[u8], end: bool) -> Result<usize, Pause>
    ensures { Steps (view_of reading.old) text.now end (view_of reading.new) result }
{
    let Some((field, operator)) = awaited(reading) else {
        return sign_step(reading, alloc, text, end);
    };
    let Some(len) = run_at(text, end) else {
        return Err(Pause::Wait);
    };
    if len == 0 {
        return sign_step(reading, alloc, text, end);
    }
    match reading.number(field, operator, &text[..len]) {
        Ok(()) => Ok(len),
        Err(halt) => Err(Pause::Halt(halt)),
    }
}

// The field and the operator of the value that is to come, if one is.
fn awaited(reading: &Reading) -> Option<(Field, Operator)>
    ensures some { IfSome result (λ x. reading.now.stage ≡ stage.Number x.0 x.1) }
    ensures none { IfNone result ((text : List ℕ) → HasNoRun reading.now.stage text) }
{
    match &reading.stage {
        Stage::Number(field, operator) => Some((*field, *operator)),
        _ => None,
    }
}

// Takes one sign.
fn sign_step(reading: &mut Reading, alloc: Global, text: &[u8], end: bool) -> Result<usize, Pause>
    requires { (rest : List ℕ) → EndsAt end rest → HasNoRun reading.old.stage (text.now ++ rest) }
    ensures { Steps (view_of reading.old) text.now end (view_of reading.new) result }
{
    let Some((sign, len)) = sign_at(text, end) else {
        return Err(Pause::Wait);
    };
    match reading.pass(alloc, sign) {
        Ok(()) => Ok(len),
        Err(halt) => Err(Pause::Halt(halt)),
    }
}
