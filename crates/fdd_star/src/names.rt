//! What a diagram of a store names.
//!
//! Layer: diagrams; private. Called by `ending` and `repetition`.
ghost use Rattle.std.specs.Prelude.{OnOk};
ghost use Rattle.nk_values.specs.Members.{IsIn};
ghost use Rattle.fdd_nodes.specs.Trees.{IsSetBy};
ghost use Rattle.fdd_star.specs.Named.{Gains};

use fdd_nodes::Assignments;
use fdd_store::{Id, Look, Store};
use indexmap::IndexSet;
use nk_values::Lit;
use std::alloc::{AllocError, Global};

/// What is named by a diagram.
#[derive(Drop)]
pub(crate) struct Names {
    /// What the diagram tests or assigns.
    pub(crate) named: IndexSet<Lit>,
    /// What it assigns.
    pub(crate) assigned: IndexSet<Lit>,
    // The diagrams that were gone through.
    done: IndexSet<Id>,
}

impl Names {
    ghost use Rattle.std.specs.Prelude.{IfOk, OnOk};
    ghost use Rattle.fdd_star.specs.Named.{AddsNames, AreNamed, HasNames};
    ghost use Rattle.fdd_store.specs.Stores.{Has, tree_at};

    /// The names of a diagram.
    pub(crate) fn of(alloc: Global, store: &Store, p: Id) -> Result<Names, AllocError>
        requires { Has store.now p }
        ensures { IfOk result (HasNames (tree_at store.now p)) }
    {
        let mut names = Names {
            named: IndexSet::new(alloc),
            assigned: IndexSet::new(alloc),
            done: IndexSet::new(alloc),
        };
        names.add(store, p)?;
        Ok(names)
    }

    // Adds the names of a diagram. A shared one is gone through once.
    fn add(&mut self, store: &Store, a: Id) -> Result<(), AllocError>
        requires has { Has store.now a }
        requires done { AreNamed store.now self.old }
        ensures { OnOk result (AddsNames store.now (tree_at store.now a) self.old self.new) }
    {
        if self.done.contains(&a) {
            return Ok(());
        }
        match store.look(a) {
            Look::Leaf => {
                let copies = store.leaf(a).copies();
                add_copies(&mut self.named, copies)?;
                add_copies(&mut self.assigned, copies)?;
            }
            Look::Fork(l, yes, no) => {
                self.named.insert(l)?;
                self.add(store, yes)?;
                self.add(store, no)?;
            }
        }
        self.done.insert(a)?;
        Ok(())
    }
}

fn add_copies(names: &mut IndexSet<Lit>, copies: &[Assignments]) -> Result<(), AllocError>
    ensures { OnOk result (Gains (IsSetBy copies.now) names.old.keys names.new.keys) }
{
    for copy in copies {
        add_lits(names, copy.lits())?;
    }
    Ok(())
}

fn add_lits(names: &mut IndexSet<Lit>, lits: &[Lit]) -> Result<(), AllocError>
    ensures { OnOk result (Gains (IsIn lits.now) names.old.keys names.new.keys) }
{
    for l in lits {
        names.insert(*l)?;
    }
    Ok(())
}
