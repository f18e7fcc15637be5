//! A document that comes in pieces.
//!
//! Layer: texts that are read; private. Adds calls to `DocReader`.
ghost use Rattle.std.specs.Prelude.{◌≡◌, ◌++◌, ◌+◌, ◌≤◌, ℕ, List, [], length, take, OnOk, OnErr};
ghost use Rattle.document_text.specs.Grammar.{IsReading, line_behind};
ghost use Rattle.document_text.specs.Documents.{Outcome};
ghost use Rattle.document_text.specs.Answers.{AnswersDocument, IsAnswer, CutsText};
ghost use Rattle.document_text.specs.Feeding.{StandsFor};

use crate::doc_reader::{DocReader, Spot};
use crate::document::Document;
use crate::fault::DocumentError;
use crate::reader::Reader;
use crate::take::refused;
use bytes::BytesMut;
use memchr::memchr;
use netkat_parser::{PolicyReader, Position};
use nk_values::{MOST_DOCUMENT_BYTES, TextFault};
use std::alloc::{AllocError, Global};

impl DocReader {
    /// Nothing was fed.
    pub fn new(alloc: Global) -> DocReader
        ensures { StandsFor result [] }
    {
        let begin = Position { line: 1, column: 1 };
        DocReader {
            reader: Reader::new(alloc),
            spot: Spot::Line,
            line: 1,
            policy: PolicyReader::starting(alloc, begin),
            behind: begin,
            pending: BytesMut::new(alloc),
            fed: 0,
            row: 1,
            look: 1,
        }
    }

    /// Reads on over these bytes. After an `Err` they are not read, and the reader stands for the text that it
    /// stood for.
    pub fn feed(&mut self, alloc: Global, piece: &[u8]) -> Result<(), AllocError>
        ensures ok { OnOk result ((text : List ℕ) → StandsFor self.old text → StandsFor self.new (text ++ piece.now)) }
        ensures err { OnErr result ((text : List ℕ) → StandsFor self.old text → StandsFor self.new text) }
    {
        self.look(alloc)?;
        self.add(piece)?;
        // What wants memory stays pending, and is read at the next call.
        match self.look(alloc) {
            Ok(()) | Err(_) => Ok(()),
        }
    }

    /// The document of the text that was fed, or its first fault.
    pub fn finish(self, alloc: Global) -> Result<Document, DocumentError>
        ensures reads { (text : List ℕ) → StandsFor self text → AnswersDocument (IsReading text) result }

        // The other way round: unless memory runs out, the answer is what the text is.
        ensures each { (text : List ℕ) (o : Outcome) → StandsFor self text → IsReading text o → IsAnswer o result }
    {
        let mut reader = self;
        if let Err(_) = reader.settle(alloc, true) {
            return Err(DocumentError::Memory);
        }
        let (fed, row) = (reader.fed, reader.row);
        let whole = reader.ended(alloc);
        if fed <= MOST_DOCUMENT_BYTES {
            whole
        } else {
            Err(cut_off(whole, row))
        }
    }

    // Holds these bytes too, where they count.
    fn add(&mut self, piece: &[u8]) -> Result<(), AllocError>
        ensures ok { OnOk result ((text : List ℕ) → StandsFor self.old text → StandsFor self.new (text ++ piece.now)) }
        ensures err { OnErr result ((text : List ℕ) → StandsFor self.old text → StandsFor self.new text) }
    {
        let counted = first(piece, MOST_DOCUMENT_BYTES + 1 - self.fed);
        let allowed = first(piece, MOST_DOCUMENT_BYTES.saturating_sub(self.fed));
        self.pending.extend_from_slice(counted)?;
        self.fed += counted.len();
        self.row = line_behind(self.row, allowed);
        Ok(())
    }

    // Reads what is whole of what is pending, where that is enough to be gone through.
    fn look(&mut self, alloc: Global) -> Result<(), AllocError>
        ensures { (text : List ℕ) → StandsFor self.old text → StandsFor self.new text }
    {
        if self.pending.len() < self.look {
            return Ok(());
        }
        self.settle(alloc, false)?;
        // So a long line that comes byte by byte is not gone through at each byte.
        self.look = self.pending.len().saturating_mul(2).max(1);
        Ok(())
    }
}

// The first bytes of a text, at most `most`.
fn first(text: &[u8], most: usize) -> &[u8]
    ensures { result.now ≡ take most text.now }
{
    &text[..most.min(text.len())]
}

// The number of the line after these bytes, the first of which is on this line.
fn line_behind(line: u64, front: &[u8]) -> u64
    requires { line + length front.now ≤ 4194306 }
    ensures { result + 1 ≡ line + line_behind front.now }
{
    let mut line = line;
    let mut rest = front;
    while let Some(at) = memchr(b'\n', rest) {
        line += 1;
        rest = &rest[at + 1..];
    }
    line
}

// A fault before this line stands, and else the text has too many bytes.
fn cut_off(whole: Result<Document, DocumentError>, line: u64) -> DocumentError
    ensures { CutsText line whole result }
{
    match whole {
        Err(DocumentError::Fault(fault)) if fault.line < line => DocumentError::Fault(fault),
        Err(DocumentError::Memory) => DocumentError::Memory,
        _ => refused(line, TextFault::Limit),
    }
}
