//! Actions that rows share.
//!
//! Layer: rows and packets; public. Called by `alone` and `made` here, and by table_emitter and table_tests.
ghost use Rattle.std.specs.Prelude.{◌≡◌, IsTrue, IfOk, [], ◌∷◌};
ghost use Rattle.nk_values.specs.declared.action.Action.TheVariants.{Output};

use nk_values::{Action, Actions, List};
use std::alloc::{AllocError, Global};
use std::cell::Cell;

// How many lists are kept. Ports whose numbers differ by a multiple of it take turns.
const SLOTS: usize = 64;

/// Lists of two actions that were made before, for rows to share: one for each port that packets are sent to. Of the
/// rows that change the tag most do nothing else, so a switch has few such lists.
#[derive(Drop)]
pub struct SharedActions {
    slots: Vec<Cell<Option<Actions>>>,
}

impl SharedActions {
    /// No lists yet.
    pub fn new(alloc: Global) -> Result<SharedActions, AllocError> {
        let mut slots = Vec::with_capacity(alloc, SLOTS)?;
        for _ in 0..SLOTS {
            slots.push(Cell::new(None))?;
        }
        Ok(SharedActions { slots })
    }

    /// A change of the tag and then an output, of packets that are sent to a port. They are those that were made
    /// before, if these are equal.
    pub(crate) fn pair(
        &self,
        alloc: Global,
        port: u16,
        change: Action,
        output: u16,
    ) -> Result<Actions, AllocError>
        ensures { IfOk result (λ as'. as' ≡ change ∷ Output output ∷ []) }
    {
        let Some(slot) = self.slots.get(usize::from(port) % SLOTS) else {
            return pair_of(alloc, change, output);
        };
        if let Some(before) = slot.take() {
            if is_pair(before.as_slice(), change, output) {
                let shared = before.copy();
                slot.set(Some(before));
                return shared;
            }
        }
        let made = pair_of(alloc, change, output)?;
        slot.set(Some(made.copy()?));
        Ok(made)
    }
}

// A change of the tag and then an output.
fn pair_of(alloc: Global, change: Action, output: u16) -> Result<Actions, AllocError>
    ensures { IfOk result (λ as'. as' ≡ change ∷ Output output ∷ []) }
{
    let mut actions = List::of(Vec::with_capacity(alloc, 2)?);
    actions.push(change)?;
    actions.push(Action::Output(output))?;
    Actions::of(alloc, actions)
}

// Whether some actions are a change of the tag and then an output. If it says no, they may be all the same.
fn is_pair(actions: &[Action], change: Action, output: u16) -> bool
    ensures { IsTrue result → actions.now ≡ change ∷ Output output ∷ [] }
{
    let [first, Action::Output(n)] = actions else {
        return false;
    };
    let same = match (first, change) {
        (Action::SetVlanVid(a), Action::SetVlanVid(b)) => *a == b,
        (Action::StripVlan, Action::StripVlan) => true,
        _ => false,
    };
    same && *n == output
}
