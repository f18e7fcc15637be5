//! The texts of policies in a document, piece by piece.
//!
//! Layer: texts that are read; private. Called by `going`.
ghost use Rattle.std.specs.Prelude.{◌≡◌, ◌≤◌, ◌<◌, true, false, ℕ, Bool, [], ◌∷◌, ◌++◌, length, OnOk, OnErr, IfOk};
ghost use Rattle.std.specs.Prelude.{vec_len, vec_capacity};
ghost use Rattle.document_text.specs.declared.doc_reader.Spot.TheVariants as spot;
ghost use Rattle.document_text.specs.Feeding.{Reaches, IsThrough, KeepsLine, KeepsSpot, HandsBack, GivesNothing, left};
ghost use Rattle.netkat_parser.specs.Readers.{StandsFor};
ghost use Rattle.document_text.specs.Grammar.{line_start};

use super::whole_len;
use crate::doc_reader::{DocReader, Spot};
use crate::fault::DocFault;
use crate::words::{is_end_line, is_no_end};
use netkat_parser::{ParseError, ParseFault, PolicyReader, Position, position_after};
use nk_syntax::Pol;
use std::alloc::{AllocError, Global};

impl DocReader {
    // A policy's text begins on this line.
    pub(super) fn open_policy(&mut self, alloc: Global)
        ensures spot { self.new.spot ≡ spot.Text self.old.line }
        ensures policy { StandsFor (line_start self.old.line) self.new.policy [] }
        ensures behind { self.new.behind ≡ line_start self.old.line }
        ensures keeps { KeepsLine self.old self.new }
    {
        let begin = line_start(self.line);
        self.policy = PolicyReader::starting(alloc, begin);
        self.behind = begin;
        self.spot = Spot::Text(self.line);
    }

    // Takes a line of a policy's text, or what there is of one that is not its `end` line.
    pub(super) fn text(&mut self, alloc: Global, begin: u64, end: bool) -> Result<bool, AllocError>
        requires { self.old.spot ≡ spot.Text begin }
        ensures reaches { Reaches end self.old self.new }
        ensures less { IfOk result (λ more. more ≡ true → left self.new < left self.old) }
        ensures through { IfOk result (λ more. more ≡ false → end ≡ true → IsThrough self.new) }
    {
        let text = self.pending.as_slice();
        match whole_len(text, end) {
            Some(len) if is_end_line(&text[..len]) => {
                self.pending.advance(len);
                self.line += 1;
                self.spot = Spot::Closing(begin);
            }
            Some(len) => {
                self.give(alloc, len)?;
                self.line += 1;
            }
            None if is_no_end(text) => {
                let len = text.len();
                self.give(alloc, len)?;
                self.spot = Spot::Inside(begin);
            }
            None => return Ok(false),
        }
        Ok(true)
    }

    // Takes what there is of a line of a policy's text that has begun.
    pub(super) fn inside(
        &mut self,
        alloc: Global,
        begin: u64,
        end: bool,
    ) -> Result<bool, AllocError>
        requires { self.old.spot ≡ spot.Inside begin }
        ensures reaches { Reaches end self.old self.new }
        ensures less { IfOk result (λ more. more ≡ true → left self.new < left self.old) }
        ensures through { IfOk result (λ more. more ≡ false → end ≡ true → IsThrough self.new) }
    {
        let text = self.pending.as_slice();
        match whole_len(text, end) {
            Some(len) => {
                self.give(alloc, len)?;
                self.line += 1;
                self.spot = Spot::Text(begin);
            }
            None if text.is_empty() => return Ok(false),
            None => {
                let len = text.len();
                self.give(alloc, len)?;
            }
        }
        Ok(true)
    }

    // Gives `len` bytes to the reader of the policy.
    fn give(&mut self, alloc: Global, len: usize) -> Result<(), AllocError>
        requires { len ≤ length self.old.pending.items }
        ensures ok { OnOk result (HandsBack len self.old self.new) }
        ensures err { OnErr result (GivesNothing self.old self.new) }
        ensures keeps { KeepsSpot self.old self.new }
    {
        let text = &self.pending.as_slice()[..len];
        self.policy.feed(alloc, text)?;
        self.behind = position_after(self.behind, text);
        self.pending.advance(len);
        Ok(())
    }

    // Makes the policy whose `end` line is in front of the spot.
    pub(super) fn close(&mut self, alloc: Global) -> Result<(), AllocError>
        requires { (begin : ℕ) × (self.old.spot ≡ spot.Closing begin) }
        ensures reaches { (end : Bool) → Reaches end self.old self.new }
        ensures less { OnOk result (left self.new < left self.old) }
    {
        self.reader.declared.policies.reserve(1)?;
        match self.policy.close(alloc) {
            Ok(pol) => {
                put(&mut self.reader.declared.policies, pol);
                self.spot = Spot::Line;
            }
            Err(ParseError::Fault(fault)) => self.spot = Spot::Refused(fault_in(fault)),
            Err(ParseError::Memory) => return Err(AllocError),
        }
        Ok(())
    }
}

// Puts a policy into room that is there.
fn put(policies: &mut Vec<Pol>, pol: Pol)
    requires { vec_len policies.old < vec_capacity policies.old }
    ensures { policies.new.items ≡ policies.old.items ++ pol ∷ [] }
{
    match policies.push(pol) {
        Ok(()) => {}
        Err(_) => prove!(false),
    }
}

// The place at which a line begins.
pub(super) fn line_start(line: u64) -> Position
    ensures { result ≡ line_start line }
{
    Position { line, column: 1 }
}

/// A fault inside a policy's text.
pub fn fault_in(fault: ParseFault) -> DocFault
    ensures { result ≡ record { fault = fault.fault; line = fault.line; column = fault.column } }
{
    DocFault {
        fault: fault.fault,
        line: fault.line,
        column: fault.column,
    }
}
