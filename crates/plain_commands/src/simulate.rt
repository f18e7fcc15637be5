//! `nkctl simulate`: the report of a schedule, in which the switches are taken from one policy to the next while
//! packets cross the network (SIGCOMM 2012, section 5).
//!
//! Layer: the program; public. Called by controller_program.
ghost use Rattle.std.specs.Prelude.{IfOk, IfErr};
ghost use Rattle.document_text.specs.Answers.{doc_of};
ghost use Rattle.outside_io.specs.Lists.{TakesAtMost};
ghost use Rattle.program_answer.specs.Answers.{Stops};
ghost use Rattle.program_answer.specs.Called.{source_of};
ghost use Rattle.program_answer.specs.Input.{policies_of};
ghost use Rattle.program_answer.specs.Sound.{IsSound};
ghost use Rattle.program_answer.specs.Versions.{AreVersions};
ghost use Rattle.plain_commands.specs.Simulate.{IsSimulateAnswer, IsSimulateRefused};
ghost use Rattle.plain_commands.specs.Told.{IsSimulatedAs, TellsStopIn};

use crate::outcome::schedule_outcome;
use outside_io::Source;
use policy_rows::Version;
use program_answer::{Answer, AnswerError, ReadyDocument, read_input, world_answer};
use std::alloc::Global;

/// The report of the schedule of a source's document, or the first line whose event cannot happen.
pub fn simulate_answer<S: Source>(alloc: Global, source: &mut S) -> Result<Answer, AnswerError>
    ensures answer { IfOk result
        (λ a. IsSimulateAnswer (source_of S.left S.faults source.old source.new) a.status a.text) }
    ensures stops { IfErr result (Stops IsSimulateRefused (source_of S.left S.faults source.old source.new)) }
    ensures at_most { TakesAtMost 4194305 (S.left source.old) (S.left source.new) }
{
    let input = read_input(alloc, source)?;
    simulation(alloc, input.document, input.versions)
}

// The report of what the schedule of a document comes to.
fn simulation(
    alloc: Global,
    document: ReadyDocument,
    versions: Vec<Version>,
) -> Result<Answer, AnswerError>
    requires sound { IsSound (doc_of document) }
    requires versions { AreVersions document.topology document.settings 0 (policies_of document) versions.items }
    ensures answer { IfOk result (IsSimulatedAs document versions.items) }
    ensures stop { IfErr result (TellsStopIn document versions.items) }
{
    let outcome = schedule_outcome(alloc, document, versions)?;
    let answer = world_answer(alloc, &outcome.world, &outcome.events)?;
    Ok(answer)
}
