//! Diagrams beside others after a test.
//!
//! Layer: diagrams; private. Adds calls to `Store`.
ghost use Rattle.std.specs.Prelude.{IfOk};
ghost use Rattle.fdd_store.specs.Canonical.{IsNotBefore};
ghost use Rattle.fdd_store.specs.Results.{Joins};
ghost use Rattle.fdd_store.specs.Stores.{Has, Grows, Gives, tree_at};

use crate::id::Id;
use crate::store::Store;
use nk_values::Lit;
use std::alloc::{AllocError, Global};

impl Store {
    /// The second diagram and, where a literal holds, the first one beside it.
    ///
    /// It is one fork if no test comes before the literal, and one of the diagrams keeps nothing where it holds.
    pub(crate) fn add(&mut self, alloc: Global, l: Lit, a: Id, b: Id) -> Result<Id, AllocError>
        requires has_a { Has self.old a }
        requires has_b { Has self.old b }
        ensures grows { Grows self.old self.new }
        ensures place { IfOk result (λ r. Gives self.new r (Joins l (tree_at self.old a) (tree_at self.old b))) }
    {
        match self.earlier(&l, a, b) {
            None => self.add_here(alloc, l, a, b),
            Some(_) => self.add_later(alloc, l, a, b),
        }
    }

    // The same if some test comes before the literal.
    fn add_later(&mut self, alloc: Global, l: Lit, a: Id, b: Id) -> Result<Id, AllocError>
        requires has_a { Has self.old a }
        requires has_b { Has self.old b }
        ensures grows { Grows self.old self.new }
        ensures place { IfOk result (λ r. Gives self.new r (Joins l (tree_at self.old a) (tree_at self.old b))) }
    {
        let none = self.keep_none(alloc)?;
        let front = self.choose(alloc, l, a, none)?;
        self.unite(alloc, front, b)
    }

    // The same if no test comes before it.
    fn add_here(&mut self, alloc: Global, l: Lit, a: Id, b: Id) -> Result<Id, AllocError>
        requires x { Gives self.old a (IsNotBefore l) }
        requires y { Gives self.old b (IsNotBefore l) }
        ensures grows { Grows self.old self.new }
        ensures place { IfOk result (λ r. Gives self.new r (Joins l (tree_at self.old a) (tree_at self.old b))) }
    {
        let x = self.part(alloc, l, a)?;
        let y = self.part(alloc, l, b)?;
        let yes = self.unite(alloc, x, y)?;
        let no = self.rest(&l, b);
        self.fork(alloc, l, yes, no)
    }
}
