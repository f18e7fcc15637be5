//! `nkctl rules`: the rows of each policy.
//!
//! Layer: the program; public. Called by controller_program.
ghost use Rattle.std.specs.Prelude.{IfOk, IfErr};
ghost use Rattle.outside_io.specs.Lists.{TakesAtMost};
ghost use Rattle.program_answer.specs.Answers.{Stops};
ghost use Rattle.program_answer.specs.Called.{source_of};
ghost use Rattle.program_answer.specs.Input.{IsInputRefused};
ghost use Rattle.plain_commands.specs.Rules.{IsRulesAnswer};

use outside_io::Source;
use program_answer::{Answer, AnswerError, Input, Status, read_input};
use report_text::rules_text;
use std::alloc::Global;

/// The rows of all policies of a source's document.
pub fn rules_answer<S: Source>(alloc: Global, source: &mut S) -> Result<Answer, AnswerError>
    ensures answer { IfOk result
        (λ a. IsRulesAnswer (source_of S.left S.faults source.old source.new) a.status a.text) }
    ensures stops { IfErr result (Stops IsInputRefused (source_of S.left S.faults source.old source.new)) }
    ensures at_most { TakesAtMost 4194305 (S.left source.old) (S.left source.new) }
{
    let Input { document, versions } = read_input(alloc, source)?;
    let text = rules_text(alloc, &versions, document.topology())?;
    Ok(Answer {
        status: Status::Done,
        text,
    })
}
