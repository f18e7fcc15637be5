//! A policy's text that comes in pieces.
//!
//! Layer: texts that are read; private. Adds calls to `PolicyReader`.
ghost use Rattle.std.specs.Prelude.{◌≡◌, ◌++◌, ℕ, false, List, [], OnOk, OnErr};
ghost use Rattle.netkat_parser.specs.Places.{text_start};
ghost use Rattle.netkat_parser.specs.Readers.{IsOpen, StandsFor, EndsFor, AnswersFor, Settles};
ghost use Rattle.netkat_parser.specs.Views.{view_of, IsWhole};
ghost use Rattle.netkat_parser.specs.declared.fault.Position.{Position as Start};
ghost use Rattle.netkat_parser.specs.declared.fault.ParseError.{ParseError as Error};
ghost use Rattle.netkat_parser.specs.declared.advance.Pause.TheVariants as pause;
ghost use Rattle.netkat_parser.specs.declared.reading.Halt.TheVariants as halt;

use crate::advance::{Pause, advance};
use crate::fault::{ParseError, ParseFault, Position};
use crate::feeding::PolicyReader;
use crate::parse::position_after;
use crate::reading::{Halt, Reading};
use bytes::BytesMut;
use nk_syntax::Pol;
use nk_values::TextFault;
use std::alloc::{AllocError, Global};
use std::mem;

impl PolicyReader {
    /// Nothing was fed. The text begins at the first line and column.
    pub fn new(alloc: Global) -> PolicyReader
        ensures { StandsFor text_start result [] }
    {
        PolicyReader::starting(alloc, Position { line: 1, column: 1 })
    }

    /// The same of a text that begins at a position of a larger one.
    pub fn starting(alloc: Global, begin: Position) -> PolicyReader
        ensures { StandsFor begin result [] }
    {
        PolicyReader {
            reading: Reading::new(alloc),
            in_comment: false,
            pending: BytesMut::new(alloc),
            position: begin,
            room: u64::MAX - begin.line.max(begin.column),
            look: 1,
            fault: None,
        }
    }

    /// Reads on over these bytes. After an `Err` they are not read, and the reader stands for the text that it
    /// stood for. A text of 2^64 bytes or more is out of memory too.
    pub fn feed(&mut self, alloc: Global, piece: &[u8]) -> Result<(), AllocError>
        ensures ok { OnOk result
            ((begin : Start) (text : List ℕ) → StandsFor begin self.old text →
            StandsFor begin self.new (text ++ piece.now)) }
        ensures err { OnErr result
            ((begin : Start) (text : List ℕ) → StandsFor begin self.old text → StandsFor begin self.new text) }
    {
        if self.pending.len() >= self.look {
            self.look(alloc)?;
        }
        self.add(piece)?;
        if self.pending.len() >= self.look {
            // What wants memory stays pending, and is read at the next call.
            match self.look(alloc) {
                Ok(()) | Err(_) => {}
            }
        }
        Ok(())
    }

    /// The policy of the text that was fed, or its first fault.
    pub fn finish(self, alloc: Global) -> Result<Pol, ParseError>
        ensures { (begin : Start) (text : List ℕ) → StandsFor begin self text → AnswersFor begin text result }
    {
        let mut reader = self;
        reader.close(alloc)
    }

    /// The same of a reader that stays, if nothing follows. After out of memory it can be asked again.
    pub fn close(&mut self, alloc: Global) -> Result<Pol, ParseError>
        ensures answer { (begin : Start) (text : List ℕ) → EndsFor begin self.old text → AnswersFor begin text result }
        ensures again { result ≡ Err Error.Memory → (begin : Start) (text : List ℕ) → EndsFor begin self.old text →
            EndsFor begin self.new text }
    {
        if let Some(fault) = self.fault {
            return Err(ParseError::Fault(fault));
        }
        match self.settle(alloc, true) {
            Pause::Halt(Halt::Fault(fault)) => {
                Err(ParseError::Fault(fault_at(fault, self.position)))
            }
            Pause::Halt(Halt::Done) => {
                self.reading.reserve()?;
                let none = Reading::new(alloc);
                Ok(mem::replace(&mut self.reading, none).policy())
            }
            Pause::Halt(Halt::Memory) | Pause::Wait => Err(ParseError::Memory),
        }
    }

    // Holds these bytes too. After a fault they do not count.
    fn add(&mut self, piece: &[u8]) -> Result<(), AllocError>
        ensures ok { OnOk result
            ((begin : Start) (text : List ℕ) → StandsFor begin self.old text →
            StandsFor begin self.new (text ++ piece.now)) }
        ensures err { OnErr result
            ((begin : Start) (text : List ℕ) → StandsFor begin self.old text → StandsFor begin self.new text) }
    {
        if self.fault.is_some() {
            return Ok(());
        }
        let len = piece.len() as u64;
        if len > self.room {
            return Err(AllocError);
        }
        self.pending.extend_from_slice(piece)?;
        self.room -= len;
        Ok(())
    }

    // Reads what is whole of what is pending.
    fn look(&mut self, alloc: Global) -> Result<(), AllocError>
        ensures { (begin : Start) (text : List ℕ) → StandsFor begin self.old text → StandsFor begin self.new text }
    {
        if self.fault.is_some() {
            return Ok(());
        }
        match self.settle(alloc, false) {
            Pause::Halt(Halt::Memory) => return Err(AllocError),
            Pause::Halt(Halt::Fault(fault)) => self.fault = Some(fault_at(fault, self.position)),
            Pause::Halt(Halt::Done) | Pause::Wait => {}
        }
        // So a long name or value that comes byte by byte is not gone through at each byte.
        self.look = self.pending.len().saturating_mul(2).max(1);
        Ok(())
    }

    // Reads what is whole of what is pending, and tells why it stops there.
    fn settle(&mut self, alloc: Global, end: bool) -> Pause
        ensures settles { (begin : Start) (text : List ℕ) → IsOpen end begin self.old text →
            Settles end begin text self.new result }
        ensures whole { result ≡ pause.Halt halt.Done → IsWhole (view_of self.new.reading) }
        ensures wait { result ≡ pause.Wait → end ≡ false }
        ensures fault { self.new.fault ≡ self.old.fault }
    {
        let (len, comment, pause) = advance(
            &mut self.reading,
            alloc,
            self.in_comment,
            self.pending.as_slice(),
            end,
        );
        self.position = position_after(self.position, &self.pending.as_slice()[..len]);
        self.pending.advance(len);
        self.in_comment = comment;
        pause
    }
}

// The fault at a position.
fn fault_at(fault: TextFault, position: Position) -> ParseFault
    ensures { result ≡ record { fault = fault; line = position.line; column = position.column } }
{
    ParseFault {
        fault,
        line: position.line,
        column: position.column,
    }
}
