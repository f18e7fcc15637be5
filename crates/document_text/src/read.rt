//! From a text to its document, or to its first fault and where that is.
//!
//! Layer: texts that are read; public. Called by many crates.
ghost use Rattle.document_text.specs.Documents.{Outcome};
ghost use Rattle.document_text.specs.Grammar.{IsReading};
ghost use Rattle.document_text.specs.Answers.{AnswersDocument, IsAnswer};

use crate::doc_reader::DocReader;
use crate::document::Document;
use crate::fault::DocumentError;
use std::alloc::Global;

/// Reads a whole text as a document, or tells its first fault. Lines end with LF, or with CR and LF;
/// the last LF may be missing. `#` begins a comment up to the line's end, and words are separated by
/// blanks and tabs. The lines stand in this order:
///
/// ```text
/// switch S ports B1 B2 ..     a switch with its ports
/// link S:B S:B                a link between two ports
/// hops N                      1 to 1,000
/// capacity N                  1 to 200,000
/// stamps LO HI                two or more of 1 to 4094
/// rejoins N                   0 to 1,000
/// policy .. end               a policy's text in lines of its own
/// packet S:B name=value ..    header fields, and vlan for a tag
/// schedule .. end             events in lines of their own
/// ```
pub fn read_document(alloc: Global, text: &[u8]) -> Result<Document, DocumentError>
    ensures reads { AnswersDocument (IsReading text.now) result }

    // The other way round: unless memory runs out, the answer is what the text is.
    ensures each { (o : Outcome) → IsReading text.now o → IsAnswer o result }
{
    let mut reader = DocReader::new(alloc);
    match reader.feed(alloc, text) {
        Ok(()) => reader.finish(alloc),
        Err(_) => Err(DocumentError::Memory),
    }
}
