//! Unions of several leaves.
//!
//! Layer: diagrams; private. Adds calls to `Store`.
ghost use Rattle.std.specs.Prelude.{◌≡◌, ◌++◌, IfOk, OnErr, OnOk, map};
ghost use Rattle.fdd_store.specs.Looks.{AreLeaves, AreCopiesOf};
ghost use Rattle.fdd_store.specs.Operations.{LeavesOf};
ghost use Rattle.fdd_store.specs.Stores.{Grows, Gives, tree_at};

use crate::id::Id;
use crate::store::Store;
use fdd_nodes::{Assignments, Leaf};
use std::alloc::{AllocError, Global};

impl Store {
    /// The union of several leaves. No leaf is made of some of them alone.
    pub fn union_of_leaves(&mut self, alloc: Global, leaves: &[Id]) -> Result<Id, AllocError>
        requires { AreLeaves self.old leaves.now }
        ensures grows { Grows self.old self.new }
        ensures place { IfOk result (λ r. Gives self.new r (LeavesOf (map (tree_at self.old) leaves.now))) }
        ensures err { OnErr result (self.new ≡ self.old) }
    {
        let copies = self.copies_of(alloc, leaves)?;
        let leaf = Leaf::gathered(alloc, copies)?;
        self.put_leaf(alloc, leaf)
    }

    fn copies_of(&self, alloc: Global, leaves: &[Id]) -> Result<Vec<Assignments>, AllocError>
        requires { AreLeaves self.now leaves.now }
        ensures { IfOk result (λ cs. AreCopiesOf self.now leaves.now cs.items) }
    {
        let mut all = Vec::new(alloc);
        for leaf in leaves {
            push_copies(&mut all, self.leaf(*leaf).copies())?;
        }
        Ok(all)
    }
}

fn push_copies(all: &mut Vec<Assignments>, copies: &[Assignments]) -> Result<(), AllocError>
    ensures { OnOk result (all.new.items ≡ all.old.items ++ copies.now) }
{
    for c in copies {
        all.push(c.copy()?)?;
    }
    Ok(())
}
