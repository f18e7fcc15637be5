//! The document that a source holds.
//!
//! Layer: the program; public. Called by `input` here, and by equal_command.
ghost use Rattle.std.specs.Prelude.{◌≡◌, [], IfOk, IfErr, OnOk};
ghost use Rattle.document_text.specs.Answers.{doc_of};
ghost use Rattle.document_text.specs.Feeding.{StandsFor};
ghost use Rattle.outside_io.specs.Lists.{TakesAtMost, TakesFirst};
ghost use Rattle.program_answer.specs.Answers.{Reads, Stops};
ghost use Rattle.program_answer.specs.Called.{source_of};
ghost use Rattle.program_answer.specs.Input.{Feeds, IsReadAs, IsTextRefusal, placed_fault};
ghost use Rattle.program_answer.specs.Lines.{Counts};
ghost use Rattle.program_answer.specs.Sound.{IsSound};

use crate::answer::AnswerError;
use crate::lines::LineCount;
use document_text::{DocFault, DocReader, Document, DocumentError};
use nk_values::MOST_DOCUMENT_BYTES;
use outside_io::{Failure, Source};
use report_text::Fault;
use std::alloc::Global;

/// The most bytes of a source that are read: one more than a document may have.
pub const READ_LIMIT: usize = MOST_DOCUMENT_BYTES + 1;

/// A document, and the number of the line after its last one.
#[derive(Drop)]
pub struct ReadDocument {
    pub document: Document,
    pub line_after: u64,
}

/// Reads the source piece by piece, and its document.
pub fn read_source<S: Source>(alloc: Global, source: &mut S) -> Result<ReadDocument, AnswerError>
    ensures reads { IfOk result
        (λ d. Reads (λ xs. IsReadAs xs (doc_of d.document) d.line_after)
        (source_of S.left S.faults source.old source.new)) }
    ensures sound { IfOk result (λ d. IsSound (doc_of d.document)) }
    ensures taken { OnOk result (TakesFirst 4194305 (S.left source.old) (S.left source.new)) }
    ensures stops { IfErr result (Stops IsTextRefusal (source_of S.left S.faults source.old source.new)) }
    ensures at_most { TakesAtMost 4194305 (S.left source.old) (S.left source.new) }
{
    let mut reader = DocReader::new(alloc);
    let mut lines = LineCount::new();
    feed_from(alloc, source, &mut reader, &mut lines)?;
    match reader.finish(alloc) {
        Ok(document) => Ok(ReadDocument {
            document,
            line_after: lines.line_after(),
        }),
        Err(DocumentError::Fault(fault)) => Err(AnswerError::Fault(placed_fault(&fault))),
        Err(DocumentError::Memory) => Err(AnswerError::Memory),
    }
}

// A fault of a text, with its place.
fn placed_fault(fault: &DocFault) -> Fault
    ensures { result ≡ placed_fault fault.now }
{
    Fault::Line {
        line: fault.line,
        column: fault.column,
        fault: fault.fault,
    }
}

// Feeds the bytes of a source to its end, or to a number after which more do not count, in pieces of at most 4,096.
// Each turn takes at least one byte, or ends the reading. A read that failed is not tried again.
fn feed_from<S: Source>(
    alloc: Global,
    source: &mut S,
    reader: &mut DocReader,
    lines: &mut LineCount,
) -> Result<(), AnswerError>
    requires reader { StandsFor reader.old [] }
    requires lines { Counts lines.old [] }
    requires none { lines.old.ended ≡ 0 }
    ensures feeds { OnOk result (Feeds (S.left source.old) (S.left source.new) reader.new lines.new) }
    ensures at_most { TakesAtMost 4194305 (S.left source.old) (S.left source.new) }
    ensures same { OnOk result (S.faults source.new ≡ S.faults source.old) }
    ensures stops { IfErr result (Stops IsTextRefusal (source_of S.left S.faults source.old source.new)) }
{
    let mut buf = [0u8; 4096];
    let mut fed = 0;
    while fed < READ_LIMIT {
        let room = buf.len().min(READ_LIMIT - fed);
        let piece = &mut buf[..room];
        let count = match source.read(piece) {
            Ok(0) => return Ok(()),
            Ok(count) => count,
            Err(Failure) => return Err(AnswerError::Fault(Fault::Read)),
        };
        if let Err(_) = reader.feed(alloc, &piece[..count]) {
            return Err(AnswerError::Memory);
        }
        lines.add(&piece[..count]);
        fed += count;
    }
    Ok(())
}
