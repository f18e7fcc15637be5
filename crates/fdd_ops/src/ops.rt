//! The operations on diagrams. Each result names only literals that its arguments name. It is normal, except that of
//! `split`.
//! Each is done in a store of its own, into which the arguments are brought path by path.
//!
//! Layer: diagrams; public. Called by diagram_tests and fdd_compile.
ghost use Rattle.std.specs.Prelude.{IfOk};
ghost use Rattle.fdd_nodes.specs.Fdds.{tree_of};
ghost use Rattle.fdd_nodes.specs.Names.{IsFew, AreFew};
ghost use Rattle.fdd_nodes.specs.Normals.{IsNormal};
ghost use Rattle.fdd_nodes.specs.Trees as trees;
ghost use Rattle.fdd_split.specs.Split.{SplitOf};
ghost use Rattle.fdd_store.specs.Operations.{IsPredicate, OneOf, ZeroOf, TestOf, AssignmentOf, UnionOf, ChoiceOf};
ghost use Rattle.fdd_store.specs.Operations.{SequenceOf, NegationOf, CofactorOf};

use crate::parts::is_field_from;
use crate::within;
use fdd_nodes::{Assignments, Fdd, Leaf, Node};
use fdd_store::Store;
use nk_values::Lit;
use std::alloc::{AllocError, Global};
use std::rc::Rc;

/// The diagram that keeps every packet.
pub fn one(alloc: Global) -> Result<Fdd, AllocError>
    ensures { IfOk result (λ r. OneOf (tree_of r)) }
{
    let leaf = Leaf::of(alloc, Assignments::none(alloc)?)?;
    Ok(Fdd::new(Node::Leaf(leaf)))
}

/// The diagram that keeps no packet.
pub fn zero(alloc: Global) -> Fdd
    ensures { ZeroOf (tree_of result) }
{
    Fdd::new(Node::Leaf(Leaf::empty(alloc)))
}

/// The diagram of the test `f=n`: it keeps the packets that hold the literal.
pub fn test(alloc: Global, l: Lit) -> Result<Fdd, AllocError>
    ensures { IfOk result (λ r. TestOf l (tree_of r)) }
{
    let keeps = Leaf::of(alloc, Assignments::none(alloc)?)?;
    let yes = Rc::new(alloc, Node::Leaf(keeps))?;
    let no = Rc::new(alloc, Node::Leaf(Leaf::empty(alloc)))?;
    Ok(Fdd::new(Node::Test(l, yes, no)))
}

/// The diagram of the assignment `f:=n`.
pub fn assign(alloc: Global, l: Lit) -> Result<Fdd, AllocError>
    ensures { IfOk result (λ r. AssignmentOf l (tree_of r)) }
{
    let copy = Assignments::one(alloc, l)?;
    let leaf = Leaf::of(alloc, copy)?;
    Ok(Fdd::new(Node::Leaf(leaf)))
}

/// The union `a + b`.
pub fn union(alloc: Global, a: &Fdd, b: &Fdd) -> Result<Fdd, AllocError>
    requires { AreFew (tree_of a.now) (tree_of b.now) }
    ensures { IfOk result (λ r. UnionOf (tree_of a.now) (tree_of b.now) (tree_of r)) }
{
    let mut store = Store::new(alloc);
    within::union(alloc, &mut store, a, b)
}

/// The diagram that tests a literal (ICFP 2015, section 3): the first diagram where it holds, and else the second.
///
/// The literal and the two diagrams name at most 4,000 literals together. The only error is `AllocError`.
pub fn choice(alloc: Global, l: Lit, a: &Fdd, b: Fdd) -> Result<Fdd, AllocError>
    requires few { IsFew (trees.Node l (tree_of a.now) (tree_of b)) }
    requires normal { IsNormal (tree_of b) }
    ensures { IfOk result (λ r. ChoiceOf l (tree_of a.now) (tree_of b) (tree_of r)) }
{
    let mut store = Store::new(alloc);
    within::choice(alloc, &mut store, l, a, &b)
}

/// The sequence `a; b`.
pub fn sequence(alloc: Global, a: &Fdd, b: &Fdd) -> Result<Fdd, AllocError>
    requires { AreFew (tree_of a.now) (tree_of b.now) }
    ensures { IfOk result (λ r. SequenceOf (tree_of a.now) (tree_of b.now) (tree_of r)) }
{
    let mut store = Store::new(alloc);
    within::sequence(alloc, &mut store, a, b)
}

/// The negation `not a` of a diagram that keeps packets or drops them.
pub fn negate(alloc: Global, a: &Fdd) -> Result<Fdd, AllocError>
    requires { IsPredicate (tree_of a.now) }
    ensures { IfOk result (λ r. NegationOf (tree_of a.now) (tree_of r)) }
{
    let mut store = Store::new(alloc);
    within::negate(alloc, &mut store, a)
}

/// The diagram where a literal holds.
pub fn cofactor(alloc: Global, a: &Fdd, l: Lit) -> Result<Fdd, AllocError>
    ensures { IfOk result (λ r. CofactorOf l (tree_of a.now) (tree_of r)) }
{
    if is_field_from(a.root(), &l) {
        let part = a.root().part_with(l.field(), l.value()).copy(alloc)?;
        return Ok(Fdd::new(part));
    }
    let mut store = Store::new(alloc);
    within::cofactor(alloc, &mut store, a, l)
}

/// The split diagram that answers as a diagram: on a packet of its path no two copies of a leaf give one packet, and no
/// test is idle.
///
/// The diagram need not be normal. The only error is `AllocError`.
pub fn split(alloc: Global, a: &Fdd) -> Result<Fdd, AllocError>
    ensures { IfOk result (λ r. SplitOf (tree_of a.now) (tree_of r)) }
{
    let mut store = Store::new(alloc);
    within::split(alloc, &mut store, a)
}
