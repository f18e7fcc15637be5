//! What comes from a switch.
//!
//! Layer: switches outside; private. Called by `steered`.
ghost use Rattle.std.specs.Prelude.{◌≡◌, ◌≢◌, ◌++◌, ◌∷◌, [], None, length, MatchBool};
ghost use Rattle.drive_journal.specs.Cuts.{IsAmong};
ghost use Rattle.drive_journal.specs.Journals.{AreCounts};
ghost use Rattle.drive_journal.specs.Losses.{HaltsAtLoss};
ghost use Rattle.drive_journal.specs.Steering.{Steers};

use crate::steering::Steering;
use update_coordinator::Coordinator;

// Does what came from a switch, and says whether it did: it does nothing if the coordinator has halted.
pub(crate) fn take_in(coordinator: &mut Coordinator, event: &Steering) -> bool
    requires place { IsAmong (length coordinator.old.peers) event.now }
    requires losses { HaltsAtLoss coordinator.old }
    ensures { MatchBool result (Steers coordinator.old event.now coordinator.new)
        ((coordinator.old.halt ≢ None) × (coordinator.new ≡ coordinator.old)) }
{
    match event {
        Steering::Heard(place, message) => coordinator.heard(*place, message).is_ok(),
        Steering::Lost(place) => coordinator.lost(*place).is_ok(),
        Steering::Garbled(place, fault) => coordinator.garbled(*place, *fault).is_ok(),
        Steering::Begin | Steering::Send(_, _) | Steering::Drained(_) => unreachable!(),
    }
}

// Counts a message that was heard after these events.
pub(crate) fn count_told(told: &mut Vec<usize>, journal: &Vec<Steering>, event: &Steering)
    requires among { IsAmong (length told.old.items) event.now }
    requires counts { AreCounts journal.now.items told.old.items }
    ensures counts { AreCounts (journal.now.items ++ event.now ∷ []) told.new.items }
    ensures len { length told.new.items ≡ length told.old.items }
{
    let made = journal.len();
    match event {
        Steering::Heard(place, _) => {
            let count = told[*place];
            prove!(count <= made);
            told[*place] = count + 1;
        }
        Steering::Begin
        | Steering::Send(_, _)
        | Steering::Drained(_)
        | Steering::Lost(_)
        | Steering::Garbled(_, _) => {}
    }
}
