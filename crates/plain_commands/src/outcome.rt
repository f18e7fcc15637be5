//! What a schedule comes to in the world of a document's policies.
//!
//! Layer: the program; public. Called by `simulate` here, and by audit_command.
ghost use Rattle.std.specs.Prelude.{IfOk, IfErr};
ghost use Rattle.document_text.specs.Answers.{doc_of};
ghost use Rattle.program_answer.specs.Input.{policies_of};
ghost use Rattle.program_answer.specs.Sound.{IsSound};
ghost use Rattle.program_answer.specs.Versions.{AreVersions};
ghost use Rattle.plain_commands.specs.Simulate.{IsOutcomeOf};
ghost use Rattle.plain_commands.specs.Told.{TellsStopIn};

use crate::schedule::carry_out;
use policy_rows::Version;
use program_answer::{AnswerError, Parts, ReadyDocument, world_settings};
use std::alloc::Global;
use world_core::{Events, World};

/// A world, and the events that led to it.
#[derive(Drop)]
pub struct Outcome {
    pub world: World,
    pub events: Events,
}

/// Carries out the schedule of a document in the world of its policies, or tells the first line whose event cannot
/// happen.
pub fn schedule_outcome(
    alloc: Global,
    document: ReadyDocument,
    versions: Vec<Version>,
) -> Result<Outcome, AnswerError>
    requires sound { IsSound (doc_of document) }
    requires versions { AreVersions document.topology document.settings 0 (policies_of document) versions.items }
    ensures outcome { IfOk result (λ o. IsOutcomeOf (doc_of document) versions.items o.events.items o.world) }
    ensures stop { IfErr result (TellsStopIn document versions.items) }
{
    let Parts {
        topology,
        packets,
        settings,
        schedule,
    } = document.into_parts();
    let mut world = World::start(alloc, versions, topology, world_settings(settings))?;
    world.kept();
    let events = carry_out(alloc, &mut world, &packets, &schedule)?;
    Ok(Outcome { world, events })
}
