//! Parts of a cell that literals share.
//!
//! Layer: diagrams; private. Called by `narrow`, `parts` and `repetition`.
ghost use Rattle.std.specs.Prelude.{IsTrue};
ghost use Rattle.fdd_nodes.specs.Trees.{Assigns};
ghost use Rattle.fdd_star.specs.Named.{Covers};
ghost use Rattle.fdd_store.specs.Stores.{Has, tree_at};

use fdd_store::{Id, Store};
use indexmap::{IndexMap, IndexSet};
use nk_values::{Field, Lit};
use std::alloc::AllocError;

/// The stars where literals of one field hold, by what these leave of a body: its cofactors.
#[derive(Drop)]
pub(crate) struct SharedParts {
    pub(crate) field: Field,
    pub(crate) parts: IndexMap<Id, Id>,
}

impl SharedParts {
    ghost use Rattle.std.specs.Prelude.{◌≡◌, OnOk};
    ghost use Rattle.indexmap.specs.IndexMap.{insert_entry};
    ghost use Rattle.fdd_star.specs.Shared.{MovesTo, id_eq};

    /// Moves on to a field, and forgets the parts of another one.
    pub(crate) fn move_to(&mut self, field: Field)
        ensures { MovesTo field self.old self.new }
    {
        if self.field != field {
            self.field = field;
            self.parts.clear();
        }
    }

    /// Keeps the part of what is left of a body.
    pub(crate) fn keep(&mut self, left: Id, part: Id) -> Result<(), AllocError>
        ensures field { self.new.field ≡ self.old.field }
        ensures parts { OnOk result (self.new.parts.entries ≡ insert_entry id_eq self.old.parts.entries left part) }
    {
        self.parts.insert(left, part)?;
        Ok(())
    }
}

/// Whether a literal shares its part: the body never assigns it.
pub(crate) fn is_shared(store: &Store, assigned: &IndexSet<Lit>, body: Id, l: &Lit) -> bool
    requires { Has store.now body }
    ensures { Covers assigned.now.keys (tree_at store.now body) → IsTrue result →
        ¬ Assigns (tree_at store.now body) l.now }
{
    !store.sets(body, l.field()) || !assigned.contains(l)
}
