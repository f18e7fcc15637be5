//! The report of a schedule, and the audits of its last world.
//!
//! Layer: the program; public. Called by controller_program.
ghost use Rattle.std.specs.Prelude.{IfOk, IfErr, OnOk, length, string_bytes};
ghost use Rattle.document_text.specs.Answers.{doc_of};
ghost use Rattle.outside_io.specs.Lists.{TakesAtMost};
ghost use Rattle.program_answer.specs.Answers.{Stops};
ghost use Rattle.program_answer.specs.Called.{source_of};
ghost use Rattle.program_answer.specs.Input.{policies_of};
ghost use Rattle.program_answer.specs.Sound.{IsSound};
ghost use Rattle.program_answer.specs.Versions.{AreVersions};
ghost use Rattle.plain_commands.specs.Simulate.{IsSimulateRefused};
ghost use Rattle.plain_commands.specs.Told.{TellsStopIn};
ghost use Rattle.audit_command.specs.Audit.{HasAudits, IsAuditAnswer};
ghost use Rattle.audit_command.specs.Told.{AreAuditsOf, IsAuditedAs};

use crate::lines::put_audit;
use outside_io::Source;
use plain_commands::schedule_outcome;
use policy_rows::Version;
use program_answer::{Answer, AnswerError, ReadyDocument, read_input, world_answer};
use std::alloc::{AllocError, Global};
use table_audit::audit_switch;
use value_text::Text;
use world_core::{Events, World};

/// The report of the schedule of a source's document and, switch by switch, how the table differs from the rows that
/// the switch holds once the batch of the phase is done; or the first line whose event cannot happen. Each switch is
/// asked for its rows by flow statistics (OpenFlow 1.0.0, 5.3.5), in messages that go as bytes.
pub fn audit_answer<S: Source>(alloc: Global, source: &mut S) -> Result<Answer, AnswerError>
    ensures answer { IfOk result
        (λ a. IsAuditAnswer (source_of S.left S.faults source.old source.new) a.status a.text) }
    ensures stops { IfErr result (Stops IsSimulateRefused (source_of S.left S.faults source.old source.new)) }
    ensures at_most { TakesAtMost 4194305 (S.left source.old) (S.left source.new) }
{
    let input = read_input(alloc, source)?;
    audited(alloc, input.document, input.versions)
}

// The report of what the schedule of a document comes to, with the audits of its world.
fn audited(
    alloc: Global,
    document: ReadyDocument,
    versions: Vec<Version>,
) -> Result<Answer, AnswerError>
    requires sound { IsSound (doc_of document) }
    requires versions { AreVersions document.topology document.settings 0 (policies_of document) versions.items }
    ensures answer { IfOk result (IsAuditedAs document versions.items) }
    ensures stop { IfErr result (TellsStopIn document versions.items) }
{
    let outcome = schedule_outcome(alloc, document, versions)?;
    let answer = audits_answer(alloc, &outcome.world, &outcome.events)?;
    Ok(answer)
}

// The report of the events that led to a world, with its audits. The call ends as halted if the updates are halted
// there.
fn audits_answer(alloc: Global, world: &World, events: &Events) -> Result<Answer, AllocError>
    ensures { IfOk result (AreAuditsOf world.now events.now.items) }
{
    let answer = world_answer(alloc, world, events)?;
    let text = with_audits(alloc, world, &answer.text)?;
    Ok(Answer {
        status: answer.status,
        text,
    })
}

// A report, and the audits of a world after it.
fn with_audits(alloc: Global, world: &World, report: &Text) -> Result<Text, AllocError>
    ensures { IfOk result (HasAudits world.now (length world.now.topology.switches) report.now) }
{
    let mut out = String::from_str(alloc, report.as_str())?;
    put_audits(alloc, &mut out, world)?;
    Ok(Text::new(out))
}

// Puts the line of each switch at the end, in the order of the document.
fn put_audits(alloc: Global, out: &mut String, world: &World) -> Result<(), AllocError>
    ensures { OnOk result (HasAudits world.now (length world.now.topology.switches) (string_bytes out.old)
        (string_bytes out.new)) }
{
    for (place, site) in world.topology().switches().iter().enumerate() {
        let verdict = audit_switch(alloc, world, place)?;
        put_audit(out, site.sw, &verdict)?;
    }
    Ok(())
}
