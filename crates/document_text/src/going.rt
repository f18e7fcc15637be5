//! Reading goes on over what is pending.
//!
//! Layer: texts that are read; private. Called by `ending`.
ghost use Rattle.std.specs.Prelude.{◌≡◌, ◌≤◌, ◌<◌, true, false, [], length, take, OnOk, IfOk, IfSome, IfNone};
ghost use Rattle.document_text.specs.declared.doc_reader.Spot.TheVariants as spot;
ghost use Rattle.document_text.specs.Answers.{state_of, TakesLine};
ghost use Rattle.document_text.specs.Feeding.{Reaches, IsThrough, IsLine, IsPiece, KeepsAll, left};
ghost use Rattle.document_text.specs.Steps.{step};
ghost use Rattle.document_text.specs.Texts.{words_of};

use crate::doc_reader::{DocReader, Spot};
use crate::fault::{DocFault, Stop};
use crate::reader::Continuation;
use crate::words::{line_end, words};
use nk_values::TextFault;
use std::alloc::{AllocError, Global};

mod policies;

pub use policies::fault_in;
use policies::line_start;

impl DocReader {
    /// Reads what is whole of what is pending. At the end a last line without LF is whole too.
    pub(crate) fn settle(&mut self, alloc: Global, end: bool) -> Result<(), AllocError>
        ensures reaches { Reaches end self.old self.new }
        ensures through { OnOk result (end ≡ true → IsThrough self.new) }
    {
        loop {
            if !self.step(alloc, end)? {
                return Ok(());
            }
        }
    }

    // Takes a line, or what there is of one of a policy's text, and tells whether there was one.
    fn step(&mut self, alloc: Global, end: bool) -> Result<bool, AllocError>
        ensures reaches { Reaches end self.old self.new }
        ensures less { IfOk result (λ more. more ≡ true → left self.new < left self.old) }
        ensures through { IfOk result (λ more. more ≡ false → end ≡ true → IsThrough self.new) }
    {
        match self.spot {
            Spot::Line => self.line(alloc, end),
            Spot::Text(begin) => self.text(alloc, begin, end),
            Spot::Inside(begin) => self.inside(alloc, begin, end),
            Spot::Closing(_) => {
                self.close(alloc)?;
                Ok(true)
            }
            Spot::Refused(_) => {
                let some = !self.pending.is_empty();
                self.pending.clear();
                Ok(some)
            }
        }
    }

    // Takes a line of the document.
    fn line(&mut self, alloc: Global, end: bool) -> Result<bool, AllocError>
        requires { self.old.spot ≡ spot.Line }
        ensures reaches { Reaches end self.old self.new }
        ensures less { IfOk result (λ more. more ≡ true → left self.new < left self.old) }
        ensures through { IfOk result (λ more. more ≡ false → end ≡ true → IsThrough self.new) }
    {
        let Some(len) = whole_len(self.pending.as_slice(), end) else {
            return Ok(false);
        };
        let taken = match self.take(alloc, len) {
            Ok(taken) => taken,
            Err(Stop::Fault(fault)) => {
                self.spot = Spot::Refused(fault_at(self.line, fault));
                self.pending.advance(len);
                return Ok(true);
            }
            Err(Stop::Memory) => return Err(AllocError),
        };
        self.pending.advance(len);
        self.line += 1;
        if let Continuation::Opening = taken {
            self.open_policy(alloc);
        }
        Ok(true)
    }

    // Takes the words of a line of `len` bytes. It stays pending.
    fn take(&mut self, alloc: Global, len: usize) -> Result<Continuation, Stop>
        requires { len ≤ length self.old.pending.items }
        ensures takes { TakesLine
            (step (state_of self.old.reader) self.old.line (words_of (take len self.old.pending.items)))
            (state_of self.old.reader) (state_of self.new.reader) result }
        ensures keeps { KeepsAll self.old self.new }
    {
        let words = words(alloc, &self.pending.as_slice()[..len])?;
        self.reader.take(alloc, self.line, &words)
    }
}

// How many bytes are the first line, where it is whole.
fn whole_len(text: &[u8], end: bool) -> Option<usize>
    ensures some { IfSome result (λ n. (0 < n) × (n ≤ length text.now) × IsLine end text.now n) }
    ensures none { IfNone result (IsPiece text.now × (end ≡ true → text.now ≡ [])) }
{
    match line_end(text) {
        Some(len) => Some(len),
        None if end && !text.is_empty() => Some(text.len()),
        None => None,
    }
}

// A fault of a line outside policies.
fn fault_at(line: u64, fault: TextFault) -> DocFault
    ensures { result ≡ record { fault = fault; line = line; column = 1 } }
{
    DocFault {
        fault,
        line,
        column: 1,
    }
}
