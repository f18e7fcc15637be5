//! Where packets come to in a diagram.
//!
//! Layer: diagrams; private. Called by `additions`, `found` and `reach`.
ghost use Rattle.std.specs.Prelude.{IfOk};
ghost use Rattle.fdd_star.specs.Asks.{Walks};
ghost use Rattle.fdd_store.specs.Stores.{Has, tree_at};

use crate::keys::Key;
use fdd_nodes::{Assignments, Cell, Knowledge};
use fdd_store::{Id, Look, Store};
use indexmap::IndexSet;
use nk_values::Lit;
use std::alloc::{AllocError, Global};

// How many cells are kept from one search to the next.
const MOST_CELLS: usize = 32_768;

/// A copy of a leaf, and the number of the cell that it makes.
#[derive(Drop)]
pub(crate) struct Successor {
    pub(crate) copy: Assignments,
    pub(crate) number: usize,
}

/// The successors of a cell, by the leaf on its packet's path, and the tests that were asked on the way at fields which
/// nothing fixes.
#[derive(Drop)]
pub(crate) struct Visit {
    pub(crate) successors: Vec<Successor>,
    pub(crate) asked: Vec<Lit>,
}

/// The cells of a store's diagrams, numbered, and the visits of their packets. So a packet that is reached from many
/// cells walks a diagram once, and is told from others by its number.
#[derive(Drop)]
pub(crate) struct Visits {
    cells: IndexSet<Key>,
    known: Vec<Option<Visit>>,
}

impl Visits {
    ghost use Rattle.std.specs.Prelude.{◌≡◌, ◌<◌, ℕ, IfSome, OnOk, Some, length, slice_get};
    ghost use Rattle.fdd_star.specs.Asks.{AreVisits, IsNumberOf, IsVisitAt, KeepsNumbers, numbered};
    ghost use Rattle.nk_values.specs.declared.packet.Packet.{Packet};
    ghost use Rattle.fdd_store.specs.Stores.{Kept};

    /// No cell yet.
    pub(crate) fn new(alloc: Global) -> Visits
        ensures { (k : Kept) → AreVisits k result }
    {
        Visits {
            cells: IndexSet::new(alloc),
            known: Vec::new(alloc),
        }
    }

    /// Forgets all cells, if there are many.
    pub(crate) fn forget_many(&mut self)
        ensures { (k : Kept) → AreVisits k self.old → AreVisits k self.new }
    {
        if self.cells.len() >= MOST_CELLS {
            self.cells.clear();
            self.known.clear();
        }
    }

    /// The number of a cell whose packet comes to a diagram.
    pub(crate) fn number(&mut self, diagram: Id, here: &Cell) -> Result<usize, AllocError>
        ensures visits { (k : Kept) → AreVisits k self.old → OnOk result (AreVisits k self.new) }
        ensures keeps { OnOk result (KeepsNumbers self.old self.new) }
        ensures number { IfOk result (λ n. IsNumberOf (numbered self.new) diagram here.now n) }
    {
        let key = Key {
            diagram,
            cell: *here,
        };
        let (number, is_new) = self.cells.insert_full(key)?;
        if is_new {
            self.known.push(None)?;
        }
        Ok(number)
    }

    /// The visit of the cell of a number, if it was made.
    pub(crate) fn get(&self, number: usize) -> Option<&Visit>
        ensures { IfSome result (λ v. slice_get self.now.known.items number ≡ Some (Some v.now)) }
    {
        match self.known.get(number) {
            Some(Some(visit)) => Some(visit),
            _ => None,
        }
    }

    /// A visit of a cell's packet.
    pub(crate) fn visit(
        &mut self,
        alloc: Global,
        store: &Store,
        diagram: Id,
        here: &Cell,
    ) -> Result<Visit, AllocError>
        requires has { Has store.now diagram }
        ensures visits { (k : Kept) → AreVisits k self.old → OnOk result (AreVisits k self.new) }
        ensures keeps { OnOk result (KeepsNumbers self.old self.new) }
        ensures visit { IfOk result (λ v. IsVisitAt store.now (numbered self.new) diagram here.now v) }
    {
        let mut asked = Vec::new(alloc);
        let leaf = walk(store, diagram, here, &mut asked)?;
        let mut successors = Vec::new(alloc);
        for copy in store.leaf(leaf).copies() {
            let number = self.number(diagram, &here.after(copy))?;
            let copy = copy.copy()?;
            successors.push(Successor { copy, number })?;
        }
        Ok(Visit { successors, asked })
    }

    /// Keeps the visit of the cell of a number.
    pub(crate) fn keep(&mut self, number: usize, visit: Visit)
        requires { number < length self.old.known.items }
        ensures visits { (k : Kept) (d : ℕ) (q : Packet) → AreVisits k self.old →
            IsNumberOf (numbered self.old) d q number → IsVisitAt k (numbered self.old) d q visit →
            AreVisits k self.new }
        ensures cells { self.new.cells ≡ self.old.cells }
    {
        self.known[number] = Some(visit);
    }
}

// The leaf on the path of a cell's packet. Notes the tests of fields that the cell leaves open.
fn walk(store: &Store, a: Id, here: &Cell, asked: &mut Vec<Lit>) -> Result<Id, AllocError>
    requires { Has store.now a }
    ensures { IfOk result (Walks store.now (tree_at store.now a) here.now asked.old.items asked.new.items) }
{
    match store.look(a) {
        Look::Leaf => Ok(a),
        Look::Fork(l, t, e) => match here.knows(&l) {
            Knowledge::Yes => walk(store, t, here, asked),
            Knowledge::No => walk(store, e, here, asked),
            Knowledge::Unset => {
                asked.push(l)?;
                walk(store, e, here, asked)
            }
        },
    }
}
