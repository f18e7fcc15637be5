//! Split diagrams of a store's diagrams.
//!
//! Layer: diagrams; public. Called by fdd_compile.
ghost use Rattle.std.specs.Prelude.{IfOk, OnOk};
ghost use Rattle.fdd_nodes.specs.Fdds.{tree_of};
ghost use Rattle.fdd_nodes.specs.Names.{IsFew};
ghost use Rattle.fdd_nodes.specs.Trees.{tree};
ghost use Rattle.fdd_store.specs.Looks.{Forked};
ghost use Rattle.fdd_store.specs.Canonical.{IsCanonical, IsLater};
ghost use Rattle.fdd_store.specs.Stores.{Has, Grows, tree_at};
ghost use Rattle.fdd_split.specs.Divides.{Divides};
ghost use Rattle.fdd_split.specs.Memos.{AreKept};
ghost use Rattle.fdd_split.specs.Split.{SplitOf};
ghost use Rattle.fdd_split.specs.Threats.{Threat, TestsNoBarred, ComesFirst};

use crate::bars::Bar;
use crate::branches::{bars_else, bars_then};
use crate::memo::{Memo, Part, key_of};
use crate::threats::first_threat;
use fdd_nodes::{Fdd, Node};
use fdd_store::{Id, Look, Store};
use nk_values::Lit;
use std::alloc::{AllocError, Global};
use std::rc::Rc;

// The first test of a diagram, and the places of its branches.
#[derive(Clone, Copy)]
struct Fork {
    test: Lit,
    yes: Id,
    no: Id,
}

/// The split diagram that answers as a diagram of a store: no two copies of a leaf give one packet, and no test is
/// idle.
///
/// A part of the store's diagram in which no two copies of a leaf can give one packet is kept as it is, and looked at
/// once.
pub fn split(alloc: Global, store: &mut Store, a: Id) -> Result<Fdd, AllocError>
    requires has { Has store.old a }
    requires few { IsFew (tree_at store.old a) }
    ensures grows { Grows store.old store.new }
    ensures split { IfOk result (λ r. SplitOf (tree_at store.old a) (tree_of r)) }
{
    let root = divided(alloc, store, a)?;
    let copy = root.copy(alloc)?;
    Ok(Fdd::new(copy))
}

// The diagram, divided by its threats.
fn divided(alloc: Global, store: &mut Store, a: Id) -> Result<Rc<Node>, AllocError>
    requires has { Has store.old a }
    requires few { IsFew (tree_at store.old a) }
    ensures grows { Grows store.old store.new }
    ensures split { IfOk result (λ r. SplitOf (tree_at store.old a) (tree r.value)) }
    ensures few { IfOk result (λ r. IsFew (tree r.value)) }
{
    let _look = store.look(a);
    let mut memo = Memo::new(alloc);
    let root = split_below(alloc, store, &mut memo, &[], a)?;
    Ok(root)
}

// A diagram of a store, divided by its threats on the packets that hold nothing barred.
#[cycle(split)]
fn split_below(
    alloc: Global,
    store: &mut Store,
    memo: &mut Memo,
    bars: &[Bar],
    a: Id,
) -> Result<Rc<Node>, AllocError>
    requires has { Has store.old a }
    requires kept { AreKept store.old memo.old }
    requires unbarred { TestsNoBarred bars.now (tree_at store.old a) }
    ensures grows { Grows store.old store.new }
    ensures kept { OnOk result (AreKept store.new memo.new) }
    ensures divided { IfOk result (λ r. Divides bars.now (tree_at store.old a) (tree r.value)) }
{
    let Some(l) = first_threat(alloc, store, memo, bars, a)? else {
        return memo.nodes.node(alloc, store, a);
    };
    let key = key_of(alloc, bars, a)?;
    if let Some(known) = memo.part_of(&key) {
        return known.root.clone();
    }
    let root = divide(alloc, store, memo, bars, l, a)?;
    let again = root.clone()?;
    memo.keep_part(key, Part { root: again })?;
    Ok(root)
}

// The same where there is a threat, which is the first.
#[cycle(split)]
fn divide(
    alloc: Global,
    store: &mut Store,
    memo: &mut Memo,
    bars: &[Bar],
    l: Lit,
    a: Id,
) -> Result<Rc<Node>, AllocError>
    requires has { Has store.old a }
    requires kept { AreKept store.old memo.old }
    requires unbarred { TestsNoBarred bars.now (tree_at store.old a) }
    requires threat { Threat bars.now (tree_at store.old a) l }
    requires first { ComesFirst bars.now (tree_at store.old a) l }
    ensures grows { Grows store.old store.new }
    ensures kept { OnOk result (AreKept store.new memo.new) }
    ensures divided { IfOk result (λ r. Divides bars.now (tree_at store.old a) (tree r.value)) }
{
    match store.look(a) {
        Look::Leaf => split_by(alloc, store, memo, bars, l, a),
        Look::Fork(test, yes, no) => {
            if l.precedes(&test) {
                split_by(alloc, store, memo, bars, l, a)
            } else {
                split_branches(alloc, store, memo, bars, a, Fork { test, yes, no })
            }
        }
    }
}

// The first test of a diagram, with its branches divided.
#[cycle(split)]
fn split_branches(
    alloc: Global,
    store: &mut Store,
    memo: &mut Memo,
    bars: &[Bar],
    a: Id,
    fork: Fork,
) -> Result<Rc<Node>, AllocError>
    requires has { Has store.old a }
    requires kept { AreKept store.old memo.old }
    requires made { IsCanonical (tree_at store.old a) }
    requires forked { Forked store.old fork.test fork.yes fork.no (tree_at store.old a) }
    requires unbarred { TestsNoBarred bars.now (tree_at store.old a) }
    requires first { ComesFirst bars.now (tree_at store.old a) fork.test }
    ensures grows { Grows store.old store.new }
    ensures kept { OnOk result (AreKept store.new memo.new) }
    ensures divided { IfOk result (λ r. Divides bars.now (tree_at store.old a) (tree r.value)) }
{
    let yes_bars = bars_then(alloc, store, bars, &fork.test, fork.yes)?;
    let no_bars = bars_else(alloc, store, bars, &fork.test, fork.no)?;
    let yes = split_below(alloc, store, memo, &yes_bars, fork.yes)?;
    let no = split_below(alloc, store, memo, &no_bars, fork.no)?;
    let made = Rc::new(alloc, Node::Test(fork.test, yes, no))?;
    Ok(made)
}

// A test of the first threat.
#[cycle(split)]
fn split_by(
    alloc: Global,
    store: &mut Store,
    memo: &mut Memo,
    bars: &[Bar],
    l: Lit,
    a: Id,
) -> Result<Rc<Node>, AllocError>
    requires has { Has store.old a }
    requires kept { AreKept store.old memo.old }
    requires made { IsCanonical (tree_at store.old a) }
    requires unbarred { TestsNoBarred bars.now (tree_at store.old a) }
    requires threat { Threat bars.now (tree_at store.old a) l }
    requires first { ComesFirst bars.now (tree_at store.old a) l }
    requires before { IsLater l (tree_at store.old a) }
    ensures grows { Grows store.old store.new }
    ensures kept { OnOk result (AreKept store.new memo.new) }
    ensures divided { IfOk result (λ r. Divides bars.now (tree_at store.old a) (tree r.value)) }
{
    let no_bars = bars_else(alloc, store, bars, &l, a)?;
    let part = store.narrow(alloc, a, l)?;
    let yes_bars = bars_then(alloc, store, bars, &l, part)?;
    let yes = split_below(alloc, store, memo, &yes_bars, part)?;
    let no = split_below(alloc, store, memo, &no_bars, a)?;
    let made = Rc::new(alloc, Node::Test(l, yes, no))?;
    Ok(made)
}
