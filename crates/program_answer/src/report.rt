//! The report of a world as an answer.
//!
//! Layer: the program; public. Called by audit_command, plain_commands and thread_commands.
ghost use Rattle.std.specs.Prelude.{IfOk};
ghost use Rattle.program_answer.specs.Worlds.{IsWorldAnswer};

use crate::answer::Answer;
use crate::status::Status;
use report_text::world_report;
use std::alloc::{AllocError, Global};
use world_core::{Events, World};

/// The report of the events that led to a world. The call ends as halted if the updates are halted there.
pub fn world_answer(alloc: Global, world: &World, events: &Events) -> Result<Answer, AllocError>
    ensures { IfOk result (IsWorldAnswer world.now events.now.items) }
{
    let text = world_report(alloc, world, events)?;
    if world.coordinator().halt().is_some() {
        Ok(Answer {
            status: Status::Halted,
            text,
        })
    } else {
        Ok(Answer {
            status: Status::Done,
            text,
        })
    }
}
