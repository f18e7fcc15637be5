//! Copies: what one copy of a packet is assigned.
//!
//! Layer: diagrams; public. Called by many modules here, and by many crates.
ghost use Rattle.std.specs.Prelude.{◌≡◌, ◌↔◌, IsTrue, IfOk};
ghost use Rattle.nk_values.specs.declared.lit.Lit.{Lit};
ghost use Rattle.fdd_nodes.specs.Copies.{IsCopy, assigned};
ghost use Rattle.fdd_nodes.specs.Makes.{IsDisjointFrom};

use crate::cell::Cell;
use nk_values::{Field, Lit, Packet};
use smallvec::SmallVec;
use std::alloc::{AllocError, Global};
use std::cmp::Ordering;
use std::hash::{Hash, Hasher};
use std::marker::Model;
use std::rc::Rc;

mod following;
mod lists;

pub(crate) use lists::applied;
use lists::{assigned_in, none_fixed};

/// The assignments of one copy, each field at most once, in field order. Clauses see the list of them.
///
/// They are shared with those that are copied of them, since many leaves have the same copies.
pub struct Assignments {
    lits: Rc<SmallVec<Lit, 4>>,
}

impl Drop for Assignments {
    fn drop(self) {
        let Assignments { lits: _lits } = self;
    }
}

impl Model for Assignments {
    ghost use Rattle.std.specs.Prelude.{List};
    ghost use Rattle.nk_values.specs.declared.lit.Lit.{Lit};
    ghost use Rattle.fdd_nodes.specs.Copies.{IsCopy};

    ghost Value = { List Lit };

    ghost view = { λ a. a.lits.value.items };

    ghost invariant = { λ a. IsCopy a.lits.value.items };
}

impl Assignments {
    ghost use Rattle.std.specs.Prelude.{[], ◌∷◌};
    ghost use Rattle.fdd_nodes.specs.Trees.{apply};

    fn new(alloc: Global, lits: SmallVec<Lit, 4>) -> Result<Assignments, AllocError>
        requires { IsCopy lits.items }
        ensures { IfOk result (λ r. r ≡ lits.items) }
    {
        let lits = Rc::new(alloc, lits)?;
        Ok(Assignments { lits })
    }

    /// No assignment.
    pub fn none(alloc: Global) -> Result<Assignments, AllocError>
        ensures { IfOk result (λ r. r ≡ []) }
    {
        Assignments::new(alloc, SmallVec::new(alloc))
    }

    /// One assignment.
    pub fn one(alloc: Global, l: Lit) -> Result<Assignments, AllocError>
        ensures { IfOk result (λ r. r ≡ l ∷ []) }
    {
        let mut lits = SmallVec::new(alloc);
        lits.push(l)?;
        Assignments::new(alloc, lits)
    }

    /// The same assignments again, which are shared.
    pub fn copy(&self) -> Result<Assignments, AllocError>
        ensures { IfOk result (λ r. r ≡ self.now) }
    {
        let lits = self.lits.clone()?;
        Ok(Assignments { lits })
    }

    /// The assignments, in field order.
    pub fn lits(&self) -> &[Lit]
        ensures list { result.now ≡ self.now }
        ensures copy { IsCopy self.now }
    {
        self.lits.as_slice()
    }

    /// The packet with these assignments.
    pub fn apply(&self, packet: &Packet) -> Packet
        ensures { result ≡ apply self.now packet.now }
    {
        applied(self.lits.as_slice(), packet)
    }

    /// What a field is assigned.
    pub fn get(&self, f: Field) -> Option<u64>
        ensures value { result ≡ assigned self.now f }
        ensures copy { IsCopy self.now }
    {
        assigned_in(self.lits.as_slice(), f)
    }

    /// Whether a cell fixes none of these.
    pub fn is_disjoint_from(&self, cell: &Cell) -> bool
        ensures disjoint { IsTrue result ↔ IsDisjointFrom cell.now self.now }
        ensures copy { IsCopy self.now }
    {
        none_fixed(self.lits.as_slice(), cell)
    }
}

impl PartialEq for Assignments {
    ghost use Rattle.std.specs.Cmp.Lexicographic.{lists_per};
    ghost use Rattle.nk_values.specs.contracts.lit.LitPartialEq.TheImpl.Laws.{laws-law};
    ghost use Rattle.fdd_nodes.specs.Copies.{copy_eq};

    ghost eq = { copy_eq };

    ghost laws = { lists_per laws-law };

    fn eq(&self, other: &Assignments) -> bool {
        self.lits.as_slice() == other.lits.as_slice()
    }
}

impl Eq for Assignments {
    ghost use Rattle.std.specs.Cmp.Lexicographic.{lists_equiv};
    ghost use Rattle.nk_values.specs.contracts.lit.LitEq.TheImpl.Laws.{laws-law};

    ghost laws = { lists_equiv laws-law };
}

impl Ord for Assignments {
    ghost use Rattle.std.proofs.Common.{rules};
    ghost use Rattle.std.specs.Cmp.Lexicographic.{lists_total, lists_ties};
    ghost use Rattle.std.specs.Cmp.Rules.{comparing};
    ghost use Rattle.nk_values.specs.contracts.lit.LitOrd.TheImpl.Laws.{total-law, matches_eq-law};
    ghost use Rattle.nk_values.specs.Ranks.{lit_cmp};
    ghost use Rattle.fdd_nodes.specs.Copies.{copy_cmp};

    ghost cmp = { copy_cmp };

    ghost total = { lists_total total-law };

    ghost matches_partial_cmp = { Prim.search (comparing, rules) };

    ghost matches_eq = { lists_ties lit_cmp matches_eq-law };

    fn cmp(&self, other: &Assignments) -> Ordering {
        self.lits.as_slice().cmp(other.lits.as_slice())
    }
}

impl PartialOrd for Assignments {
    ghost use Rattle.std.proofs.Common.{rules};
    ghost use Rattle.std.specs.Cmp.{po};
    ghost use Rattle.std.specs.Cmp.Lexicographic.{lists_total, lists_ties};
    ghost use Rattle.std.specs.Cmp.Rules.{comparing};
    ghost use Rattle.std.specs.Ordering.{as_partial_cmp};
    ghost use Rattle.nk_values.specs.contracts.lit.LitOrd.TheImpl.Laws.{total-law, matches_eq-law};
    ghost use Rattle.nk_values.specs.Ranks.{lit_cmp};
    ghost use Rattle.fdd_nodes.specs.Copies.{copy_cmp};

    ghost partial_cmp = { as_partial_cmp copy_cmp };

    ghost laws = { po (lists_total total-law) (lists_ties lit_cmp matches_eq-law) };

    fn partial_cmp(&self, other: &Assignments) -> Option<Ordering> {
        Some(self.cmp(other))
    }
}

impl Hash for Assignments {
    ghost use Rattle.std.specs.Hash.{items_Alike};
    ghost use Rattle.nk_values.proofs.LitLaws.{lit_alike};
    ghost use Rattle.fdd_nodes.specs.Copies.{copy_input};

    ghost hash_input = { copy_input };

    ghost respects_eq = { (items_Alike lit_alike).fed };

    fn hash<H: Hasher>(&self, state: &mut H) {
        self.lits.as_slice().hash(state);
    }
}
