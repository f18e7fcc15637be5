//! The parts of a cell.
//!
//! Layer: diagrams; private. Called by `repetition`.
ghost use Rattle.std.specs.Prelude.{IfOk};
ghost use Rattle.fdd_star.specs.Shared.{IsLeft};

use crate::fault::StarError;
use crate::narrow::narrowed;
use crate::progress::Progress;
use crate::reach::Reach;
use crate::scope::Scope;
use crate::shared::SharedParts;
use fdd_nodes::Leaf;
use fdd_store::{Id, Store};
use indexmap::{IndexMap, IndexSet};
use nk_values::{Field, Lit};
use std::alloc::{AllocError, Global};
use std::collections::BTreeSet;

/// The star in a cell as it is made, part by part: one for each test that was asked of a field which the cell leaves
/// open.
#[derive(Drop)]
pub(crate) struct Parts {
    /// The star as far as it is made: where none of the literals holds whose parts are left.
    pub(crate) all: Id,
    /// The literals whose parts are left, the last one first.
    pub(crate) left: Vec<Lit>,
    /// Of which diagram they are the stars.
    pub(crate) body: Id,
    pub(crate) shared: SharedParts,
}

impl Parts {
    ghost use Rattle.std.specs.Prelude.{MatchResult, OnOk};
    ghost use Rattle.nk_values.specs.Packets.{IsInRange};
    ghost use Rattle.fdd_nodes.specs.Cells.{IsFresh, IsValid};
    ghost use Rattle.fdd_nodes.specs.Names.{IsFew};
    ghost use Rattle.fdd_star.specs.Faults.{IsErrorIn};
    ghost use Rattle.fdd_star.specs.Found.{AreFound};
    ghost use Rattle.fdd_star.specs.Parts.{HasParts};
    ghost use Rattle.fdd_star.specs.Reaches.{HoldsAll};
    ghost use Rattle.fdd_store.specs.Stores.{Has, Grows, tree_at};

    /// The packet of the cell alone: no part is made yet. The tests that were asked are added to the literals that are
    /// missed. The cell holds the first copy.
    pub(crate) fn of(
        alloc: Global,
        store: &mut Store,
        progress: &mut Progress,
        scope: &Scope<'_>,
    ) -> Result<Parts, StarError>
        requires has { Has store.old scope.now.body }
        requires few { IsFew (tree_at store.old scope.now.body) }
        requires valid { IsValid scope.now.cell.now }
        requires found { AreFound store.old progress.old.found }
        requires range { IsInRange scope.now.other.now }
        requires fresh { IsFresh scope.now.other.now (tree_at store.old scope.now.body) }
        requires held { HoldsAll scope.now.cell.now scope.now.first.now }
        ensures grows { Grows store.old store.new }
        ensures found { OnOk result (AreFound store.new progress.new.found) }
        ensures parts { MatchResult result
            (HasParts store.new scope.now.first.now (tree_at store.old scope.now.body) scope.now.cell.now
            progress.old.missed.keys progress.new.missed.keys)
            (λ e. IsErrorIn (tree_at store.old scope.now.body) scope.now.cell.now scope.now.other.now e) }
    {
        let Progress { found, missed } = progress;
        let Reach { copies, asked, .. } = Reach::of(alloc, store, found, scope)?;
        found.places.allow(copies.len() / 4);
        let left = left_of(alloc, missed, asked)?;
        let leaf = Leaf::gathered(alloc, copies)?;
        let all = store.put_leaf(alloc, leaf)?;
        let body = narrowed(alloc, store, &mut found.places, scope, &left)?;
        Ok(Parts {
            all,
            left,
            body,
            shared: SharedParts {
                field: Field::Sw,
                parts: IndexMap::new(alloc),
            },
        })
    }
}

// Adds the tests that were asked to those that are missed, and lists the ones that were not there.
fn left_of(
    alloc: Global,
    missed: &mut IndexSet<Lit>,
    mut asked: BTreeSet<Lit>,
) -> Result<Vec<Lit>, AllocError>
    ensures { IfOk result (λ r. IsLeft missed.old.keys asked.keys missed.new.keys r.items) }
{
    let mut left = Vec::new(alloc);
    while let Some(l) = asked.pop_first() {
        if missed.insert(l)? {
            left.push(l)?;
        }
    }
    Ok(left)
}
