//! Assignments after others, and without those that a cell fixes.
//!
//! Layer: diagrams; private. Adds calls to `Assignments`.
ghost use Rattle.std.specs.Prelude.{◌≡◌, ◌↔◌, ◌++◌, IfOk, IsTrue, OnOk};
ghost use Rattle.nk_values.specs.declared.lit.Lit.{Lit};
ghost use Rattle.fdd_nodes.specs.Copies.{IsCopy, strip, after};

use super::Assignments;
use crate::cell::Cell;
use crate::covering::covers;
use nk_values::Lit;
use smallvec::SmallVec;
use std::alloc::{AllocError, Global};

impl Assignments {
    /// The assignments without those that a cell fixes. They are shared if it fixes none.
    pub fn stripped(&self, alloc: Global, cell: &Cell) -> Result<Assignments, AllocError>
        ensures stripped { IfOk result (λ r. r ≡ strip cell.now self.now) }
        ensures copy { IsCopy self.now }
    {
        if self.is_disjoint_from(cell) {
            return self.copy();
        }
        let kept = unfixed(alloc, cell, self.lits())?;
        Assignments::new(alloc, kept)
    }

    /// These assignments, and then others. The others are shared if they assign each field that these do.
    pub fn followed_by(&self, alloc: Global, later: &Assignments) -> Result<Assignments, AllocError>
        ensures after { IfOk result (λ r. r ≡ after self.now later.now) }
        ensures copy { IsCopy self.now }
    {
        let (lits, more) = (self.lits(), later.lits());
        if more.is_empty() {
            return self.copy();
        }
        if covers(more, lits) {
            return later.copy();
        }
        let mut both = SmallVec::new(alloc);
        push_after(&mut both, lits, more)?;
        Assignments::new(alloc, both)
    }

    /// Whether these are what two others make, one after the other.
    pub fn is_sequence_of(&self, first: &Assignments, later: &Assignments) -> bool
        ensures after { IsTrue result ↔ (self.now ≡ after first.now later.now) }
        ensures copy { IsCopy first.now }
    {
        is_after(self.lits(), first.lits(), later.lits())
    }
}

fn unfixed(alloc: Global, cell: &Cell, lits: &[Lit]) -> Result<SmallVec<Lit, 4>, AllocError>
    ensures { IfOk result (λ r. r.items ≡ strip cell.now lits.now) }
{
    let mut kept = SmallVec::new(alloc);
    for l in lits {
        if !l.holds(cell.generic()) {
            kept.push(*l)?;
        }
    }
    Ok(kept)
}

// Adds literals and later ones in field order: of a field that both have, the later one.
#[cycle(after)]
fn push_after(out: &mut SmallVec<Lit, 4>, lits: &[Lit], later: &[Lit]) -> Result<(), AllocError>
    requires lits { IsCopy lits.now }
    requires later { IsCopy later.now }
    ensures { OnOk result (out.new.items ≡ out.old.items ++ after lits.now later.now) }
{
    let Some((l, more)) = later.split_first() else {
        return push_all(out, lits);
    };
    let Some((m, rest)) = lits.split_first() else {
        return push_all(out, later);
    };
    let (place, other) = (l.field().place(), m.field().place());
    if other < place {
        out.push(*m)?;
        push_after(out, rest, later)
    } else {
        out.push(*l)?;
        if other == place {
            push_after(out, rest, more)
        } else {
            push_after(out, lits, more)
        }
    }
}

// Whether literals are others and later ones in field order: of a field that both have, the later one.
#[cycle(sequence)]
fn is_after(all: &[Lit], lits: &[Lit], later: &[Lit]) -> bool
    requires lits { IsCopy lits.now }
    requires later { IsCopy later.now }
    ensures { IsTrue result ↔ (all.now ≡ after lits.now later.now) }
{
    let Some((l, more)) = later.split_first() else {
        return all == lits;
    };
    let Some((m, rest)) = lits.split_first() else {
        return all == later;
    };
    let Some((n, others)) = all.split_first() else {
        return false;
    };
    let (place, other) = (l.field().place(), m.field().place());
    if other < place {
        n == m && is_after(others, rest, later)
    } else if other == place {
        n == l && is_after(others, rest, more)
    } else {
        n == l && is_after(others, lits, more)
    }
}

fn push_all(out: &mut SmallVec<Lit, 4>, lits: &[Lit]) -> Result<(), AllocError>
    ensures { OnOk result (out.new.items ≡ out.old.items ++ lits.now) }
{
    for l in lits {
        out.push(*l)?;
    }
    Ok(())
}
