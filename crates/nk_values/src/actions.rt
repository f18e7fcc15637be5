//! The actions of a row.
//!
//! Layer: values and policies; public. Called by `row` here, and by many crates.
ghost use Rattle.std.specs.Prelude.{◌≡◌, ◌↔◌, [], ◌∷◌, length, IsTrue, IfOk};
ghost use Rattle.std.specs.Slice.Iter.{iter_rest, iter_steps};

use crate::action::Action;
use crate::list::List;
use std::alloc::{AllocError, Global};
use std::marker::Model;
use std::slice;
use std::sync::Arc;

/// Actions, in the order in which they run; none drop the packet. One action takes no memory of its own, and copies of
/// several share them.
#[derive(Debug)]
pub struct Actions {
    held: ActionStore,
}

impl Drop for Actions {
    fn drop(self) {
        let Actions { held: _held } = self;
    }
}

// How many actions there are, and where they lie.
#[derive(Debug, Drop)]
enum ActionStore {
    None,
    One(Action),
    Several(Arc<List<Action>>),
}

impl Model for Actions {
    ghost use Rattle.std.specs.Prelude.{List};
    ghost use Rattle.nk_values.specs.Acts.{held_actions};
    ghost use Rattle.nk_values.specs.declared.action.Action.{Action as ActionValue};

    ghost Value = { List ActionValue };

    ghost view = { λ a. held_actions a.held };
}

impl Actions {
    /// No actions.
    pub fn none() -> Actions
        ensures { result ≡ [] }
    {
        Actions {
            held: ActionStore::None,
        }
    }

    /// One action.
    pub fn one(action: Action) -> Actions
        ensures { result ≡ action ∷ [] }
    {
        Actions {
            held: ActionStore::One(action),
        }
    }

    /// The actions of a list.
    pub fn of(alloc: Global, list: List<Action>) -> Result<Actions, AllocError>
        ensures { IfOk result (λ a. a ≡ list) }
    {
        let held = match list.as_slice() {
            [] => ActionStore::None,
            [action] => ActionStore::One(*action),
            _ => ActionStore::Several(Arc::new(alloc, list)?),
        };
        Ok(Actions { held })
    }

    /// Equal actions. Several are shared; the error says that too many share them already.
    pub fn copy(&self) -> Result<Actions, AllocError>
        ensures { IfOk result (λ a. a ≡ self.now) }
    {
        let held = match &self.held {
            ActionStore::None => ActionStore::None,
            ActionStore::One(action) => ActionStore::One(*action),
            ActionStore::Several(list) => ActionStore::Several(Arc::try_clone(list)?),
        };
        Ok(Actions { held })
    }

    /// The actions in order.
    pub fn as_slice(&self) -> &[Action]
        ensures { result.now ≡ self.now }
    {
        match &self.held {
            ActionStore::None => &[],
            ActionStore::One(action) => slice::from_ref(action),
            ActionStore::Several(list) => list.as_slice(),
        }
    }

    /// How many there are.
    pub fn len(&self) -> usize
        ensures { result ≡ length self.now }
    {
        self.as_slice().len()
    }

    /// Whether there is none.
    pub fn is_empty(&self) -> bool
        ensures { IsTrue result ↔ (self.now ≡ []) }
    {
        self.as_slice().is_empty()
    }

    /// The actions, one after another.
    pub fn iter(&self) -> slice::Iter<'_, Action>
        ensures { iter_rest result ≡ self.now }
    {
        self.as_slice().iter()
    }
}

/// The actions, one after another.
impl<'a> IntoIterator for &'a Actions {
    ghost use Rattle.std.specs.Prelude.{◌^◌, ◌<◌};
    ghost use Rattle.std.specs.Iterator.Runs.{EveryRun, ItemsMapTo};
    ghost use Rattle.nk_values.specs.declared.action.Action.{Action};

    type Item = &'a Action;

    type IntoIter = slice::Iter<'a, Action>;

    ghost into_iter_gives = { λ l it. (iter_rest it ≡ l.now) × (length (iter_rest it) < 2 ^ 64)
        × EveryRun (iter_steps {A = Action}) (λ p. ItemsMapTo p (λ x. x.now) (iter_rest p.from)) };

    fn into_iter(self) -> slice::Iter<'a, Action> {
        self.as_slice().iter()
    }
}
