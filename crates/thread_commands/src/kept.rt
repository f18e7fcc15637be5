//! What comes back of a run.
//!
//! Layer: the program; private. Called by `document_run`.
ghost use Rattle.std.specs.Prelude.{◌≡◌, ◌<◌, ◌≤◌, IfOk};
ghost use Rattle.nk_values.specs.Members.{IsIn};
ghost use Rattle.outside_io.specs.Causes.{Rose};
ghost use Rattle.world_journal.specs.Journals.{events_of};
ghost use Rattle.program_answer.specs.Called.{change};
ghost use Rattle.thread_commands.specs.Run.{AreGathered, HasRisenBy, many_broken};

use outside_net::Net;
use std::alloc::{AllocError, Global};
use world_core::Events;
use world_journal::Entry;

/// Gives ends back to their net, the last one first.
pub fn take_back<N: Net>(net: &mut N, ends: Vec<N::End>)
    ensures later { N.broken net.old ≤ N.broken net.new }
    ensures broken { (e : N.End) → IsIn ends.items e → 0 < N.End.faults e → Rose (N.broken net.old) (N.broken net.new) }
    ensures counted { HasRisenBy (many_broken N.End.faults ends.items) (change N.broken net.old net.new) }
    ensures gathered { AreGathered N.End.received ends.items (change N.gathered net.old net.new) }
    ensures faults { N.faults net.new ≡ N.faults net.old }
{
    let mut ends = ends;
    while let Some(end) = ends.pop() {
        net.take_back(end);
    }
}

/// The events of a journal.
pub fn events_of(alloc: Global, journal: Vec<Entry>) -> Result<Events, AllocError>
    ensures { IfOk result (λ events. events.items ≡ events_of journal.items) }
{
    let mut events = Events::new(alloc);
    for entry in journal {
        events.push(entry.event)?;
    }
    Ok(events)
}
