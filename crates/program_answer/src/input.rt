//! A document, and its policies put into rows.
//!
//! Layer: the program; public. Called by many crates.
ghost use Rattle.std.specs.Prelude.{IfOk, IfErr, OnOk};
ghost use Rattle.document_text.specs.Answers.{doc_of};
ghost use Rattle.outside_io.specs.Lists.{TakesAtMost, TakesFirst};
ghost use Rattle.program_answer.specs.Answers.{Reads, Stops};
ghost use Rattle.program_answer.specs.Called.{source_of};
ghost use Rattle.program_answer.specs.Input.{IsAcceptedAs, IsInputRefused, policies_of};
ghost use Rattle.program_answer.specs.Sound.{IsSound};
ghost use Rattle.program_answer.specs.Versions.{AreVersions};

use crate::answer::AnswerError;
use crate::reading::read_source;
use crate::ready::{ReadyDocument, SplitDocument};
use crate::versions::versions;
use outside_io::Source;
use policy_rows::Version;
use std::alloc::Global;

/// A document with a version for each of its policies.
#[derive(Drop)]
pub struct Input {
    pub document: ReadyDocument,
    pub versions: Vec<Version>,
}

/// Reads a source to its end, and puts the policies of its document into rows, from the first on. Of a source that is
/// too long, one byte more than a document may have is read.
pub fn read_input<S: Source>(alloc: Global, source: &mut S) -> Result<Input, AnswerError>
    ensures reads { IfOk result
        (λ i. Reads (λ xs. IsAcceptedAs xs (doc_of i.document) i.versions.items)
        (source_of S.left S.faults source.old source.new)) }
    ensures taken { OnOk result (TakesFirst 4194305 (S.left source.old) (S.left source.new)) }
    ensures sound { IfOk result (λ i. IsSound (doc_of i.document)) }
    ensures versions { IfOk result
        (λ i. AreVersions i.document.topology i.document.settings 0 (policies_of i.document) i.versions.items) }
    ensures stops { IfErr result (Stops IsInputRefused (source_of S.left S.faults source.old source.new)) }
    ensures at_most { TakesAtMost 4194305 (S.left source.old) (S.left source.new) }
{
    let read = read_source(alloc, source)?;
    let SplitDocument { document, policies } = ReadyDocument::apart(alloc, read.document)?;
    let versions = versions(alloc, document.topology(), document.settings(), policies)?;
    Ok(Input { document, versions })
}
