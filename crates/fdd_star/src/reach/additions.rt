//! What a visit adds to what is reached.
//!
//! Layer: diagrams; private. Adds calls to `Reach`.
use super::Reach;
use crate::last::LastCopies;
use crate::visits::{Successor, Visit};
use fdd_nodes::Assignments;
use nk_values::Lit;
use std::alloc::{AllocError, Global};

impl Reach {
    ghost use Rattle.std.specs.Prelude.{◌≡◌, ℕ, List, [], ◌∷◌, OnOk};
    ghost use Rattle.nk_values.specs.declared.packet.Packet.{Packet};
    ghost use Rattle.fdd_nodes.specs.Trees.{apply};
    ghost use Rattle.fdd_star.specs.declared.keys.Key.{Key};
    ghost use Rattle.fdd_star.specs.Asks.{AreApart, IsVisitAt};
    ghost use Rattle.fdd_star.specs.Reaches.{AsksAll, Grows, IsNumbered, NotesNumber};
    ghost use Rattle.fdd_store.specs.Stores.{Kept, tree_at};

    // Adds what a visit's leaf makes of a copy's packet, and notes what was asked.
    pub(super) fn follow(
        &mut self,
        alloc: Global,
        last: &mut LastCopies,
        copy: &Assignments,
        visit: &Visit,
    ) -> Result<(), AllocError>
        ensures { (keys : List Key) (k : Kept) (d : ℕ) (c : Packet) → AreApart keys → IsNumbered keys d c self.old →
            IsVisitAt k keys d (apply copy.now c) visit.now →
            OnOk result (IsNumbered keys d c self.new × Grows (tree_at k d) c (copy.now ∷ []) self.old self.new) }
    {
        self.note(&visit.asked)?;
        for next in &visit.successors {
            self.add(alloc, last, copy, next)?;
        }
        Ok(())
    }

    // Notes tests that were asked.
    fn note(&mut self, asked: &[Lit]) -> Result<(), AllocError>
        ensures asked { OnOk result (AsksAll asked.now self.old self.new) }
        ensures numbers { self.new.numbers ≡ self.old.numbers }
        ensures copies { self.new.copies ≡ self.old.copies }
    {
        for l in asked {
            self.asked.insert(*l)?;
        }
        Ok(())
    }

    // Adds the number of the cell that a successor makes after a copy, if it is not there.
    fn add(
        &mut self,
        alloc: Global,
        last: &mut LastCopies,
        copy: &Assignments,
        next: &Successor,
    ) -> Result<(), AllocError>
        ensures { OnOk result (NotesNumber next.now.number copy.now next.now.copy self.old self.new) }
    {
        if self.numbers.insert(next.number)? {
            let both = last.sequence(alloc, next.number, copy, &next.copy)?;
            self.copies.push(both)?;
        }
        Ok(())
    }
}
