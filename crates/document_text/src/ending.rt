//! What comes of a text that was read to its end.
//!
//! Layer: texts that are read; private. Adds calls to `DocReader`.
ghost use Rattle.std.specs.Prelude.{◌≡◌, ℕ, List, [], MatchBool};
ghost use Rattle.netkat_parser.specs.Places.{position_after};
ghost use Rattle.netkat_parser.specs.Readers.{StandsFor};
ghost use Rattle.document_text.specs.Answers.{AnswersDocument, LacksAnswer};
ghost use Rattle.document_text.specs.Feeding.{HoldsBytes, IsThrough, Comes};
ghost use Rattle.document_text.specs.Grammar.{line_start};

use crate::doc_reader::{DocReader, Spot};
use crate::document::Document;
use crate::fault::DocumentError;
use crate::going::fault_in;
use crate::take::refused;
use netkat_parser::{ParseError, ParseFault, PolicyReader, Position};
use nk_values::TextFault;
use std::alloc::Global;

impl DocReader {
    /// What comes of all lines.
    pub(crate) fn ended(self, alloc: Global) -> Result<Document, DocumentError>
        requires { IsThrough self }
        ensures { (front : List ℕ) → HoldsBytes self front → AnswersDocument (λ o. Comes self front [] o) result }
    {
        let DocReader {
            reader,
            spot,
            line,
            policy,
            behind,
            ..
        } = self;
        match spot {
            Spot::Line => reader.finish(alloc, line),
            Spot::Text(_) => Err(unclosed(alloc, policy, behind, line)),
            Spot::Inside(_) => Err(unclosed(alloc, policy, behind, line + 1)),
            Spot::Closing(_) => unreachable!(),
            Spot::Refused(fault) => Err(DocumentError::Fault(fault)),
        }
    }
}

// Why a policy that has no `end` line is refused, where its text ends at this place and the lines at this one.
fn unclosed(alloc: Global, policy: PolicyReader, behind: Position, line: u64) -> DocumentError
    ensures { (begin : ℕ) (front : List ℕ) → StandsFor (line_start begin) policy front →
        position_after (line_start begin) front ≡ behind → LacksAnswer line begin front result }
{
    let fault = match policy.finish(alloc) {
        Err(ParseError::Fault(fault)) => fault,
        Err(ParseError::Memory) => return DocumentError::Memory,
        Ok(_) => return refused(line, TextFault::BadLine),
    };
    if is_at(behind, fault) {
        return refused(line, TextFault::BadLine);
    }
    DocumentError::Fault(fault_in(fault))
}

// Whether this is the fault's place.
fn is_at(place: Position, fault: ParseFault) -> bool
    ensures { MatchBool result (place ≡ record { line = fault.line; column = fault.column })
        (¬ (place ≡ record { line = fault.line; column = fault.column })) }
{
    place.line == fault.line && place.column == fault.column
}
