//! What the repetition of a diagram reaches from the packet of a cell.
//!
//! Layer: diagrams; private. Called by `parts`.
use crate::fault::{StarError, StarFault};
use crate::found::Findings;
use crate::numbers::NumberSet;
use crate::scope::Scope;
use crate::visits::{Successor, Visits};
use fdd_nodes::Assignments;
use fdd_store::Store;
use nk_values::Lit;
use std::alloc::{AllocError, Global};
use std::collections::BTreeSet;

mod additions;

/// The cells that are reached, by their numbers, each once and in the order of iterations, with a copy that makes each
/// of the first; and the tests that were asked on the way at fields which nothing fixes.
#[derive(Drop)]
pub(crate) struct Reach {
    numbers: NumberSet,
    pub(crate) copies: Vec<Assignments>,
    pub(crate) asked: BTreeSet<Lit>,
}

impl Reach {
    ghost use Rattle.std.specs.Prelude.{◌≤◌, [], ◌∷◌, length, drop, MatchResult, IfOk, OnOk};
    ghost use Rattle.nk_values.specs.Packets.{IsInRange};
    ghost use Rattle.fdd_nodes.specs.Cells.{IsValid, IsFresh};
    ghost use Rattle.fdd_nodes.specs.Trees.{apply};
    ghost use Rattle.fdd_star.specs.Asks.{AreVisits, IsNumberOf, numbered};
    ghost use Rattle.fdd_star.specs.Faults.{IsErrorIn};
    ghost use Rattle.fdd_star.specs.Reaches.{reached_copies, HoldsAll, Starts, IsNumbered, Grows, IsClosed};
    ghost use Rattle.fdd_store.specs.Stores.{Has, Kept, tree_at};

    /// What any number of iterations reach after the first copy, or an output that takes 513 iterations. The fault
    /// fills the cell with another packet, which has nothing that the diagram names.
    pub(crate) fn of(
        alloc: Global,
        store: &Store,
        found: &mut Findings,
        scope: &Scope<'_>,
    ) -> Result<Reach, StarError>
        requires has { Has store.now scope.now.body }
        requires valid { IsValid scope.now.cell.now }
        requires visits { AreVisits store.now found.old.visits }
        requires range { IsInRange scope.now.other.now }
        requires fresh { IsFresh scope.now.other.now (tree_at store.now scope.now.body) }
        requires held { HoldsAll scope.now.cell.now scope.now.first.now }
        ensures visits { OnOk result (AreVisits store.now found.new.visits) }
        ensures reach { MatchResult result
            (λ r. IsClosed scope.now.first.now (tree_at store.now scope.now.body) scope.now.cell.now r)
            (λ e. IsErrorIn (tree_at store.now scope.now.body) scope.now.cell.now scope.now.other.now e) }
    {
        found.visits.forget_many();
        let mut all = Reach::start(alloc, &mut found.visits, scope)?;
        let mut from = 0;
        for iteration in 0..513u64 {
            let until = all.copies.len();
            if from == until {
                return Ok(all);
            }
            all.iterate(alloc, store, found, scope, from)?;
            from = until;
        }
        match all.copies.get(from) {
            None => Ok(all),
            Some(late) => {
                let packet = scope.cell.filled(scope.other);
                let output = scope.cell.after(late).filled(scope.other);
                Err(StarError::Fault(StarFault { packet, output }))
            }
        }
    }

    // The packet of the cell, before the first iteration. It holds the first copy.
    fn start(alloc: Global, visits: &mut Visits, scope: &Scope<'_>) -> Result<Reach, AllocError>
        requires { HoldsAll scope.now.cell.now scope.now.first.now }
        ensures visits { (k : Kept) → AreVisits k visits.old → OnOk result (AreVisits k visits.new) }
        ensures starts { IfOk result (λ r. Starts scope.now.first.now r) }
        ensures numbered { IfOk result (λ r. IsNumbered (numbered visits.new) scope.now.body scope.now.cell.now r) }
    {
        let mut all = Reach {
            numbers: NumberSet::new(alloc),
            copies: Vec::new(alloc),
            asked: BTreeSet::new(alloc),
        };
        let number = visits.number(scope.body, scope.cell)?;
        all.numbers.insert(number)?;
        all.copies.push(scope.first.copy()?)?;
        Ok(all)
    }

    // One iteration more for the copies from a place on.
    fn iterate(
        &mut self,
        alloc: Global,
        store: &Store,
        found: &mut Findings,
        scope: &Scope<'_>,
        from: usize,
    ) -> Result<(), AllocError>
        requires has { Has store.now scope.now.body }
        requires visits { AreVisits store.now found.old.visits }
        requires place { from ≤ length (reached_copies self.old) }
        requires numbered { IsNumbered (numbered found.old.visits) scope.now.body scope.now.cell.now self.old }
        ensures visits { OnOk result (AreVisits store.now found.new.visits) }
        ensures numbered { OnOk result
            (IsNumbered (numbered found.new.visits) scope.now.body scope.now.cell.now self.new) }
        ensures grown { OnOk result
            (Grows (tree_at store.now scope.now.body) scope.now.cell.now (drop from (reached_copies self.old)) self.old
            self.new) }
    {
        for i in from..self.copies.len() {
            let here = Successor {
                copy: self.copies[i].copy()?,
                number: self.numbers.at(i),
            };
            self.step(alloc, store, found, scope, &here)?;
        }
        Ok(())
    }

    // One iteration more for a copy that makes the cell of its number.
    fn step(
        &mut self,
        alloc: Global,
        store: &Store,
        found: &mut Findings,
        scope: &Scope<'_>,
        here: &Successor,
    ) -> Result<(), AllocError>
        requires has { Has store.now scope.now.body }
        requires visits { AreVisits store.now found.old.visits }
        requires numbered { IsNumbered (numbered found.old.visits) scope.now.body scope.now.cell.now self.old }
        requires number { IsNumberOf (numbered found.old.visits) scope.now.body
            (apply here.now.copy scope.now.cell.now) here.now.number }
        ensures visits { OnOk result (AreVisits store.now found.new.visits) }
        ensures numbered { OnOk result
            (IsNumbered (numbered found.new.visits) scope.now.body scope.now.cell.now self.new) }
        ensures grown { OnOk result
            (Grows (tree_at store.now scope.now.body) scope.now.cell.now (here.now.copy ∷ []) self.old self.new) }
    {
        if let Some(visit) = found.visits.get(here.number) {
            return self.follow(alloc, &mut found.last, &here.copy, visit);
        }
        let cell = scope.cell.after(&here.copy);
        let made = found.visits.visit(alloc, store, scope.body, &cell)?;
        self.follow(alloc, &mut found.last, &here.copy, &made)?;
        found.visits.keep(here.number, made);
        Ok(())
    }
}
