//! Sums of diagrams that do not begin with a test in common.
//!
//! Layer: diagrams; private. Called by `bare`.
ghost use Rattle.std.specs.Prelude.{IfOk, IsTrue, map};
ghost use Rattle.fdd_store.specs.Looks.{AreLeaves};
ghost use Rattle.fdd_store.specs.Stores.{Grows, Gives, tree_at};
ghost use Rattle.fdd_compile.specs.Folds.{AreHeld, AreSmall, UnionOfAll};

use crate::folds::{Fold, folded};
use fdd_store::{Id, Look, Store};
use std::alloc::{AllocError, Global};

/// The sum of several diagrams, of leaves at once.
pub(crate) fn plain_sum(alloc: Global, store: &mut Store, parts: &[Id]) -> Result<Id, AllocError>
    requires held { AreHeld store.old parts.now }
    requires small { AreSmall (map (tree_at store.old) parts.now) }
    ensures grows { Grows store.old store.new }
    ensures place { IfOk result (λ r. Gives store.new r (UnionOfAll (map (tree_at store.old) parts.now))) }
{
    if parts.len() < 2 {
        return folded(alloc, store, parts, Fold::Union);
    }
    if are_leaves(store, parts) {
        return store.union_of_leaves(alloc, parts);
    }
    folded(alloc, store, parts, Fold::Union)
}

fn are_leaves(store: &Store, parts: &[Id]) -> bool
    requires { AreHeld store.now parts.now }
    ensures { IsTrue result → AreLeaves store.now parts.now }
{
    for part in parts {
        match store.look(*part) {
            Look::Leaf => {}
            Look::Fork(_, _, _) => return false,
        }
    }
    true
}
