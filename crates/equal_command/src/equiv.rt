//! `nkctl equiv`: whether the two policies of a document mean the same (POPL 2014, section 4).
//!
//! Layer: the program; public. Called by controller_program.
ghost use Rattle.std.specs.Prelude.{◌≡◌, IfOk, IfErr};
ghost use Rattle.nk_syntax.specs.Views.{term_of};
ghost use Rattle.document_text.specs.Answers.{doc_of};
ghost use Rattle.fdd_compile.specs.Named.{AreFewNamed, TermNames};
ghost use Rattle.outside_io.specs.Lists.{TakesAtMost};
ghost use Rattle.program_answer.specs.Answers.{Stops};
ghost use Rattle.program_answer.specs.Called.{source_of};
ghost use Rattle.program_answer.specs.Sound.{IsSound};
ghost use Rattle.equal_command.specs.Equiv.{IsEquivAnswer, IsEquivRefused, number_of};
ghost use Rattle.equal_command.specs.Compared.{IsComparedAs, IsEquivTold, IsTextOf, TellsEquivFault, TellsPairFault};

use document_text::Document;
use nk_syntax::Pol;
use outside_io::Source;
use policy_equality::{CompareError, Difference, Side, compare};
use program_answer::{Answer, AnswerError, ReadDocument, Status, read_source};
use std::alloc::{AllocError, Global};
use value_text::{Fault, Text, apart_text, equal_text};

/// The comparison of the two policies of a source's document.
pub fn equiv_answer<S: Source>(alloc: Global, source: &mut S) -> Result<Answer, AnswerError>
    ensures answer { IfOk result
        (λ a. IsEquivAnswer (source_of S.left S.faults source.old source.new) a.status a.text) }
    ensures stops { IfErr result (Stops IsEquivRefused (source_of S.left S.faults source.old source.new)) }
    ensures at_most { TakesAtMost 4194305 (S.left source.old) (S.left source.new) }
{
    let read = read_source(alloc, source)?;
    equiv(alloc, &read.document, read.line_after)
}

// Compares the two policies of a document, if these are all.
fn equiv(alloc: Global, document: &Document, line_after: u64) -> Result<Answer, AnswerError>
    requires { IsSound (doc_of document.now) }
    ensures answer { IfOk result (IsEquivTold (doc_of document.now)) }
    ensures fault { IfErr result (TellsEquivFault (doc_of document.now) line_after) }
{
    let policies = document.policies.as_slice();
    if policies.len() != 2 {
        return Err(AnswerError::Fault(Fault::NotTwo { line: line_after }));
    }
    comparison(alloc, &policies[0], &policies[1])
}

// Compares two policies.
fn comparison(alloc: Global, first: &Pol, second: &Pol) -> Result<Answer, AnswerError>
    requires few_first { AreFewNamed (TermNames (term_of first.now)) }
    requires few_second { AreFewNamed (TermNames (term_of second.now)) }
    ensures answer { IfOk result (IsComparedAs (term_of first.now) (term_of second.now)) }
    ensures fault { IfErr result (TellsPairFault (term_of first.now) (term_of second.now)) }
{
    match compare(alloc, first, second) {
        Ok(found) => {
            let text = comparison_text(alloc, &found)?;
            Ok(Answer {
                status: Status::Done,
                text,
            })
        }
        Err(CompareError::Fault { side, fault }) => {
            let policy = number_of(side);
            Err(AnswerError::Fault(Fault::Compile { policy, fault }))
        }
        Err(CompareError::Memory) => Err(AnswerError::Memory),
    }
}

// The line of a comparison.
fn comparison_text(alloc: Global, found: &Option<Difference>) -> Result<Text, AllocError>
    ensures { IfOk result (IsTextOf found.now) }
{
    match found {
        None => equal_text(alloc),
        Some(apart) => apart_text(alloc, &apart.packet, &apart.output, number_of(apart.side)),
    }
}

// The number of a policy.
fn number_of(side: Side) -> u64
    ensures { result ≡ number_of side }
{
    match side {
        Side::First => 1,
        Side::Second => 2,
    }
}
