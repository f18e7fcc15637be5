//! Assignments.
//!
//! Layer: diagrams; private. Adds calls to `Store`.
ghost use Rattle.std.specs.Prelude.{◌≡◌, [], ◌∷◌, IfOk, IfSome, IsTrue, OnErr};
ghost use Rattle.fdd_nodes.specs.Trees as trees;
ghost use Rattle.fdd_store.specs.Canonical.{IsCanonical};
ghost use Rattle.fdd_store.specs.Operations.{AssignmentOf};
ghost use Rattle.fdd_store.specs.Stores.{Has, Grows, Gives, tree_at};

use crate::id::Id;
use crate::store::{Look, Store};
use fdd_nodes::{Assignments, Leaf};
use nk_values::Lit;
use std::alloc::{AllocError, Global};

impl Store {
    /// The diagram that gives each packet a literal. It is mostly known, since policies assign few literals often.
    pub(crate) fn give(&mut self, alloc: Global, l: Lit) -> Result<Id, AllocError>
        ensures grows { Grows self.old self.new }
        ensures place { IfOk result (λ r. Gives self.new r (AssignmentOf l)) }
        ensures err { OnErr result (self.new ≡ self.old) }
    {
        if let Some(a) = self.giving(&l) {
            return Ok(a);
        }
        let leaf = Leaf::of(alloc, Assignments::one(alloc, l)?)?;
        let a = self.put_leaf(alloc, leaf)?;
        self.note(l, a);
        Ok(a)
    }

    // The diagram that was noted, if it still gives the literal.
    fn giving(&self, l: &Lit) -> Option<Id>
        ensures { IfSome result (λ a. Gives self.now a (λ t. t ≡ trees.Leaf ((l.now ∷ []) ∷ []))) }
    {
        let a = self.noted(l)?;
        if self.holds(a) && self.gives(a, l) {
            Some(a)
        } else {
            None
        }
    }

    fn gives(&self, a: Id, l: &Lit) -> bool
        requires { Has self.now a }
        ensures gives { IsTrue result → tree_at self.now a ≡ trees.Leaf ((l.now ∷ []) ∷ []) }
        ensures made { IsCanonical (tree_at self.now a) }
    {
        match self.look(a) {
            Look::Leaf => match self.leaf(a).copies() {
                [copy] => match copy.lits() {
                    [m] => m.is(l),
                    _ => false,
                },
                _ => false,
            },
            Look::Fork(_, _, _) => false,
        }
    }
}
