//! Leaves: sets of copies.
//!
//! Layer: diagrams; public. Called by `fdd`, `node` and `normal` here, and by many crates.
ghost use Rattle.std.specs.Prelude.{◌≡◌, ◌↔◌, [], IsTrue, IfOk, OnOk};
ghost use Rattle.std.specs.List.Sorted.{IsStrictlySortedBy};
ghost use Rattle.nk_values.specs.Members.{SameMembers};
ghost use Rattle.fdd_nodes.specs.Copies.{copy_cmp};
ghost use Rattle.fdd_nodes.specs.Trees.{outcomes};

use crate::assignments::Assignments;
use nk_values::Packet;
use std::alloc::{AllocError, Global};
use std::hash::{Hash, Hasher};
use std::marker::Model;

mod copies;
mod ranks;

pub(crate) use copies::{are_disjoint_from, made_by, makes};
use copies::{copied, is_rising, makes_all, place_for};
use ranks::sorted;

/// The copies of a leaf, each once, in rising order. Clauses see the list of them.
pub struct Leaf {
    copies: Vec<Assignments>,
}

impl Drop for Leaf {
    fn drop(self) {
        let Leaf { copies: _copies } = self;
    }
}

impl Model for Leaf {
    ghost use Rattle.std.specs.Prelude.{List};
    ghost use Rattle.nk_values.specs.declared.lit.Lit.{Lit};
    ghost use Rattle.std.specs.List.Sorted.{IsStrictlySortedBy};
    ghost use Rattle.fdd_nodes.specs.Copies.{copy_cmp};

    ghost Value = { List (List Lit) };

    ghost view = { λ a. a.copies.items };

    ghost invariant = { λ a. IsStrictlySortedBy copy_cmp a.copies.items };
}

impl Leaf {
    ghost use Rattle.std.specs.Prelude.{[], ◌∷◌, OnOk, OnErr};
    ghost use Rattle.std.specs.List.Sorted.{IsStrictlySortedBy};
    ghost use Rattle.fdd_nodes.specs.Copies.{PutsCopy, copy_cmp};
    ghost use Rattle.fdd_nodes.specs.Trees.{SameAnswers};

    /// The leaf with no copy.
    pub fn empty(alloc: Global) -> Leaf
        ensures { result ≡ [] }
    {
        Leaf {
            copies: Vec::new(alloc),
        }
    }

    /// The leaf with no copy, and with room for some.
    pub fn with_capacity(alloc: Global, count: usize) -> Result<Leaf, AllocError>
        ensures { IfOk result (λ r. r ≡ []) }
    {
        let copies = Vec::with_capacity(alloc, count)?;
        Ok(Leaf { copies })
    }

    /// The leaf with one copy.
    pub fn of(alloc: Global, copy: Assignments) -> Result<Leaf, AllocError>
        ensures { IfOk result (λ r. r ≡ copy ∷ []) }
    {
        let mut copies = Vec::new(alloc);
        copies.push(copy)?;
        Ok(Leaf { copies })
    }

    /// The leaf of copies in rising order.
    pub fn of_rising(copies: Vec<Assignments>) -> Leaf
        requires { IsStrictlySortedBy copy_cmp copies.items }
        ensures { result ≡ copies.items }
    {
        Leaf { copies }
    }

    /// The leaf of some copies. They are taken as they are if they rise, and else sorted first, and each is put once.
    pub fn gathered(alloc: Global, copies: Vec<Assignments>) -> Result<Leaf, AllocError>
        ensures { IfOk result (λ r. SameMembers r copies.items) }
    {
        if is_rising(&copies) {
            return Ok(Leaf { copies });
        }
        let mut copies = sorted(alloc, copies)?;
        if is_rising(&copies) {
            return Ok(Leaf { copies });
        }
        copies.sort_unstable();
        let mut leaf = Leaf::with_capacity(alloc, copies.len())?;
        put_all(&mut leaf, copies)?;
        Ok(leaf)
    }

    /// The same leaf again.
    pub fn copy(&self, alloc: Global) -> Result<Leaf, AllocError>
        ensures { IfOk result (λ r. r ≡ self.now) }
    {
        let copies = copied(alloc, &self.copies)?;
        Ok(Leaf { copies })
    }

    /// The copies, in rising order.
    pub fn copies(&self) -> &[Assignments]
        ensures list { result.now ≡ self.now }
        ensures rising { IsStrictlySortedBy copy_cmp self.now }
    {
        &self.copies
    }

    /// Adds a copy, if it is not there.
    pub fn put(&mut self, copy: Assignments) -> Result<(), AllocError>
        ensures ok { OnOk result (PutsCopy copy self.old self.new) }
        ensures err { OnErr result (self.new ≡ self.old) }
    {
        if let Some(place) = place_for(&self.copies, &copy) {
            self.copies.insert(place, copy)?;
        }
        Ok(())
    }

    /// Whether two leaves make the same packets of a packet.
    pub fn makes_same(&self, other: &Leaf, packet: &Packet) -> bool
        ensures { IsTrue result ↔ SameAnswers (outcomes self.now packet.now) (outcomes other.now packet.now) }
    {
        if self == other {
            return true;
        }
        makes_all(&self.copies, &other.copies, packet)
            && makes_all(&other.copies, &self.copies, packet)
    }
}

impl PartialEq for Leaf {
    ghost use Rattle.std.specs.Cmp.Lexicographic.{pointwise, lists_per};
    ghost use Rattle.fdd_nodes.specs.contracts.assignments.AssignmentsPartialEq.TheImpl.Laws.{laws-law};
    ghost use Rattle.fdd_nodes.specs.Copies.{copy_eq};

    ghost eq = { pointwise copy_eq };

    ghost laws = { lists_per laws-law };

    fn eq(&self, other: &Leaf) -> bool {
        self.copies == other.copies
    }
}

impl Eq for Leaf {
    ghost use Rattle.std.specs.Cmp.Lexicographic.{lists_equiv};
    ghost use Rattle.fdd_nodes.specs.contracts.assignments.AssignmentsEq.TheImpl.Laws.{laws-law};

    ghost laws = { lists_equiv laws-law };
}

impl Hash for Leaf {
    ghost use Rattle.std.specs.Hash as fed;
    ghost use Rattle.std.specs.Hash.{items_Alike};
    ghost use Rattle.nk_values.proofs.LitLaws.{lit_alike};
    ghost use Rattle.fdd_nodes.specs.Copies.{copy_input};

    ghost hash_input = { fed.slice copy_input };

    ghost respects_eq = { (items_Alike (items_Alike lit_alike)).fed };

    fn hash<H: Hasher>(&self, state: &mut H) {
        self.copies.hash(state);
    }
}

fn put_all(leaf: &mut Leaf, copies: Vec<Assignments>) -> Result<(), AllocError>
    requires { leaf.old ≡ [] }
    ensures { OnOk result (SameMembers leaf.new copies.items) }
{
    for copy in copies {
        leaf.put(copy)?;
    }
    Ok(())
}
