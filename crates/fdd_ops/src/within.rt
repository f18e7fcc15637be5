//! Operations on diagrams, done in a store into which they are brought.
//!
//! Layer: diagrams; private. Called by the root of the crate.
ghost use Rattle.std.specs.Prelude.{IfOk};
ghost use Rattle.fdd_nodes.specs.Fdds.{tree_of};
ghost use Rattle.fdd_nodes.specs.Names.{IsFew, AreFew};
ghost use Rattle.fdd_nodes.specs.Trees as trees;
ghost use Rattle.fdd_split.specs.Split.{SplitOf};
ghost use Rattle.fdd_store.specs.Operations.{IsPredicate, IsFieldFrom, UnionOf, ChoiceOf, SequenceOf, NegationOf};
ghost use Rattle.fdd_store.specs.Operations.{CofactorOf, ReductionOf};
ghost use Rattle.fdd_store.specs.Stores.{Gives};

use fdd_nodes::Fdd;
use fdd_store::{Id, Store};
use nk_values::Lit;
use std::alloc::{AllocError, Global};

/// The union `a + b`.
pub(crate) fn union(alloc: Global, store: &mut Store, a: &Fdd, b: &Fdd) -> Result<Fdd, AllocError>
    requires { AreFew (tree_of a.now) (tree_of b.now) }
    ensures { IfOk result (λ r. UnionOf (tree_of a.now) (tree_of b.now) (tree_of r)) }
{
    let (x, y) = both(alloc, store, a, b)?;
    let r = store.union(alloc, x, y)?;
    store.tree(alloc, r)
}

/// The first diagram where a literal holds, and else the second.
pub(crate) fn choice(
    alloc: Global,
    store: &mut Store,
    l: Lit,
    a: &Fdd,
    b: &Fdd,
) -> Result<Fdd, AllocError>
    requires { IsFew (trees.Node l (tree_of a.now) (tree_of b.now)) }
    ensures { IfOk result (λ r. ChoiceOf l (tree_of a.now) (tree_of b.now) (tree_of r)) }
{
    let (x, y) = both(alloc, store, a, b)?;
    let r = store.choice(alloc, l, x, y)?;
    store.tree(alloc, r)
}

/// The sequence `a; b`.
pub(crate) fn sequence(
    alloc: Global,
    store: &mut Store,
    a: &Fdd,
    b: &Fdd,
) -> Result<Fdd, AllocError>
    requires { AreFew (tree_of a.now) (tree_of b.now) }
    ensures { IfOk result (λ r. SequenceOf (tree_of a.now) (tree_of b.now) (tree_of r)) }
{
    let (x, y) = both(alloc, store, a, b)?;
    let r = store.sequence(alloc, x, y)?;
    store.tree(alloc, r)
}

/// The negation `not a` of a diagram that keeps packets or drops them.
pub(crate) fn negate(alloc: Global, store: &mut Store, a: &Fdd) -> Result<Fdd, AllocError>
    requires { IsPredicate (tree_of a.now) }
    ensures { IfOk result (λ r. NegationOf (tree_of a.now) (tree_of r)) }
{
    let x = store.intern(alloc, a)?;
    let r = store.negate(alloc, x)?;
    store.tree(alloc, r)
}

/// The diagram where a literal holds, of one that tests a field before the literal's.
pub(crate) fn cofactor(alloc: Global, store: &mut Store, a: &Fdd, l: Lit) -> Result<Fdd, AllocError>
    requires { ¬ IsFieldFrom l (tree_of a.now) }
    ensures { IfOk result (λ r. CofactorOf l (tree_of a.now) (tree_of r)) }
{
    let x = store.intern(alloc, a)?;
    let r = store.cofactor(alloc, x, l)?;
    store.tree(alloc, r)
}

/// The split diagram that answers as a diagram.
pub(crate) fn split(alloc: Global, store: &mut Store, a: &Fdd) -> Result<Fdd, AllocError>
    ensures { IfOk result (λ r. SplitOf (tree_of a.now) (tree_of r)) }
{
    let x = store.intern(alloc, a)?;
    fdd_split::split(alloc, store, x)
}

// Two diagrams, brought into a store.
fn both(alloc: Global, store: &mut Store, a: &Fdd, b: &Fdd) -> Result<(Id, Id), AllocError>
    ensures first { IfOk result (λ r. Gives store.new r.0 (ReductionOf (tree_of a.now))) }
    ensures second { IfOk result (λ r. Gives store.new r.1 (ReductionOf (tree_of b.now))) }
{
    let x = store.intern(alloc, a)?;
    let y = store.intern(alloc, b)?;
    Ok((x, y))
}
