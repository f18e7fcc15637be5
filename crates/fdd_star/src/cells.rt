//! The cells that the iterations of a diagram lead to.
//!
//! Layer: diagrams; private. Called by `narrow`.
ghost use Rattle.std.specs.Prelude.{IsTrue, IfOk, OnOk};
ghost use Rattle.fdd_nodes.specs.Trees.{Leaf};
ghost use Rattle.fdd_star.specs.Cells.{AllLead, AllLeadOn, IsClosed, LeadsOn};
ghost use Rattle.fdd_store.specs.Stores.{Has, tree_at};

use crate::found::Places;
use crate::numbers::NumberSet;
use fdd_nodes::{Assignments, Cell, Knowledge};
use fdd_store::{Id, Look, Store};
use indexmap::IndexSet;
use std::alloc::AllocError;

// How many cells are gone through at most, and how many places of a diagram for all of them.
const MOST_CELLS: usize = 4_096;

const MOST_PLACES: usize = 262_144;

/// Adds a cell and those that iterations lead to from it, or from another one of them, whatever its packets hold in
/// unset fields. It tells whether all are there: not if they are many, or if too much of the diagram would be gone
/// through for them. What was gone through is taken from the allowance.
pub(crate) fn add_led_to(
    store: &Store,
    places: &mut Places,
    cells: &mut IndexSet<Cell>,
    p: Id,
    cell: &Cell,
) -> Result<bool, AllocError>
    requires { Has store.now p }
    ensures { IfOk result (λ all. IsTrue all → IsClosed (tree_at store.now p) cell.now cells.new.keys) }
{
    let Some(least) = places.allowance.checked_sub(MOST_PLACES) else {
        return Ok(false);
    };
    cells.insert(*cell)?;
    for i in 0..MOST_CELLS {
        let Some(here) = cells.get_index(i) else {
            return Ok(true);
        };
        let here = *here;
        add_from(store, places, cells, &here, p)?;
        if places.allowance <= least {
            return Ok(false);
        }
    }
    Ok(false)
}

// Adds the cells that a diagram leads to from one, and takes the places that were gone through from the allowance.
fn add_from(
    store: &Store,
    places: &mut Places,
    cells: &mut IndexSet<Cell>,
    here: &Cell,
    p: Id,
) -> Result<(), AllocError>
    requires { Has store.now p }
    ensures { OnOk result (LeadsOn (tree_at store.now p) here.now cells.old.keys cells.new.keys) }
{
    places.done.clear();
    add_cells(store, cells, &mut places.done, here, p)?;
    places.allowance = places.allowance.saturating_sub(places.done.len());
    Ok(())
}

// The same, if the diagram was not gone through before.
fn add_cells(
    store: &Store,
    cells: &mut IndexSet<Cell>,
    done: &mut NumberSet,
    here: &Cell,
    a: Id,
) -> Result<(), AllocError>
    requires has { Has store.now a }
    requires done { AllLead store.now here.now done.old cells.old.keys }
    ensures { OnOk result (AllLeadOn store.now (tree_at store.now a) here.now cells.old.keys cells.new.keys
        done.new) }
{
    if done.contains(a.place()) {
        return Ok(());
    }
    match store.look(a) {
        Look::Leaf => add_copies(cells, here, store.leaf(a).copies())?,
        Look::Fork(l, yes, no) => match here.knows(&l) {
            Knowledge::Yes => add_cells(store, cells, done, here, yes)?,
            Knowledge::No => add_cells(store, cells, done, here, no)?,
            Knowledge::Unset => {
                add_cells(store, cells, done, here, yes)?;
                add_cells(store, cells, done, here, no)?
            }
        },
    }
    done.insert(a.place())?;
    Ok(())
}

// Adds what copies make of a cell.
fn add_copies(
    cells: &mut IndexSet<Cell>,
    here: &Cell,
    copies: &[Assignments],
) -> Result<(), AllocError>
    ensures { OnOk result (LeadsOn (Leaf copies.now) here.now cells.old.keys cells.new.keys) }
{
    for copy in copies {
        cells.insert(here.after(copy))?;
    }
    Ok(())
}
