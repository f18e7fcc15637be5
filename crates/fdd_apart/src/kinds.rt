//! Diagrams on the well-shaped packets of one kind of frame.
//!
//! Layer: diagrams; private. Called by `finding`.
ghost use Rattle.std.specs.Prelude.{[], IfOk, IfSome, OnOk};
ghost use Rattle.fdd_differ.specs.declared.frame.Frame.{Frame};
ghost use Rattle.fdd_differ.specs.Frames.{frame_cell};
ghost use Rattle.fdd_nodes.specs.Cells.{IsUnset};
ghost use Rattle.nk_values.specs.Lits.{lit_field};
ghost use Rattle.fdd_nodes.specs.Names.{IsFew};
ghost use Rattle.fdd_nodes.specs.Roots.{IsLeaf};
ghost use Rattle.fdd_store.specs.Leaves.{AddsCopies};
ghost use Rattle.fdd_store.specs.Looks.{Forked};
ghost use Rattle.fdd_store.specs.Canonical.{IsCanonical};
ghost use Rattle.fdd_store.specs.Stores.{Kept, Has, Gives, Grows, tree_at};
ghost use Rattle.fdd_apart.specs.Kinds.{AreRestrictions, IsRestriction, Restricts};

use fdd_differ::Frame;
use fdd_nodes::{Assignments, Cell, Knowledge, Leaf};
use fdd_store::{Id, Look, Store};
use indexmap::IndexMap;
use nk_values::Lit;
use std::alloc::{AllocError, Global};

// The first test of a diagram, and the places of its branches.
#[derive(Clone, Copy)]
struct Fork {
    test: Lit,
    yes: Id,
    no: Id,
}

/// The diagram that answers each well-shaped packet of a kind as another one does. It tests and assigns only what the
/// kind leaves open.
///
/// A part that is shared is walked once.
pub(crate) fn restriction(
    alloc: Global,
    store: &mut Store,
    frame: Frame,
    a: Id,
) -> Result<Id, AllocError>
    requires has { Has store.old a }
    requires few { IsFew (tree_at store.old a) }
    ensures grows { Grows store.old store.new }
    ensures only { IfOk result (λ r. Gives store.new r (Restricts frame (tree_at store.old a))) }
{
    let mut known = IndexMap::new(alloc);
    restrict(alloc, store, frame, &mut known, a)
}

// The same, with the results for the parts that were walked before.
#[cycle(restrict)]
fn restrict(
    alloc: Global,
    store: &mut Store,
    frame: Frame,
    known: &mut IndexMap<Id, Id>,
    a: Id,
) -> Result<Id, AllocError>
    requires has { Has store.old a }
    requires few { IsFew (tree_at store.old a) }
    requires known { AreRestrictions frame store.old known.old.entries }
    ensures grows { Grows store.old store.new }
    ensures known { OnOk result (AreRestrictions frame store.new known.new.entries) }
    ensures only { IfOk result (λ r. Gives store.new r (Restricts frame (tree_at store.old a))) }
{
    if let Some(r) = found(known, a) {
        return Ok(r);
    }
    let r = restrict_anew(alloc, store, frame, known, a)?;
    known.insert(a, r)?;
    Ok(r)
}

// The result for a part that was walked.
fn found(known: &IndexMap<Id, Id>, a: Id) -> Option<Id>
    ensures { (k : Frame) (s : Kept) → AreRestrictions k s known.now.entries →
        IfSome result (λ r. IsRestriction k s a r) }
{
    match known.get(&a) {
        None => None,
        Some(r) => Some(*r),
    }
}

// The same for a part that was not.
#[cycle(restrict)]
fn restrict_anew(
    alloc: Global,
    store: &mut Store,
    frame: Frame,
    known: &mut IndexMap<Id, Id>,
    a: Id,
) -> Result<Id, AllocError>
    requires has { Has store.old a }
    requires few { IsFew (tree_at store.old a) }
    requires known { AreRestrictions frame store.old known.old.entries }
    ensures grows { Grows store.old store.new }
    ensures known { OnOk result (AreRestrictions frame store.new known.new.entries) }
    ensures only { IfOk result (λ r. Gives store.new r (Restricts frame (tree_at store.old a))) }
{
    match store.look(a) {
        Look::Leaf => restrict_leaf(alloc, store, frame, a),
        Look::Fork(test, yes, no) => match frame.cell().knows(&test) {
            Knowledge::Yes => restrict(alloc, store, frame, known, yes),
            Knowledge::No => restrict(alloc, store, frame, known, no),
            Knowledge::Unset => restrict_test(
                alloc,
                store,
                frame,
                known,
                a,
                Fork { test, yes, no },
            ),
        },
    }
}

// A test of a field that the kind leaves open. It stays if the kind leaves its value.
#[cycle(restrict)]
fn restrict_test(
    alloc: Global,
    store: &mut Store,
    frame: Frame,
    known: &mut IndexMap<Id, Id>,
    a: Id,
    fork: Fork,
) -> Result<Id, AllocError>
    requires fork { Forked store.old fork.test fork.yes fork.no (tree_at store.old a) }
    requires made { IsCanonical (tree_at store.old a) }
    requires few { IsFew (tree_at store.old a) }
    requires known { AreRestrictions frame store.old known.old.entries }
    requires untold { IsUnset (frame_cell frame) (lit_field fork.test) }
    ensures grows { Grows store.old store.new }
    ensures known { OnOk result (AreRestrictions frame store.new known.new.entries) }
    ensures only { IfOk result (λ r. Gives store.new r (Restricts frame (tree_at store.old a))) }
{
    let no = restrict(alloc, store, frame, known, fork.no)?;
    if !frame.leaves(fork.test.field(), fork.test.value()) {
        return Ok(no);
    }
    let yes = restrict(alloc, store, frame, known, fork.yes)?;
    store.choice(alloc, fork.test, yes, no)
}

fn restrict_leaf(alloc: Global, store: &mut Store, frame: Frame, a: Id) -> Result<Id, AllocError>
    requires has { Has store.old a }
    requires leaf { IsLeaf (tree_at store.old a) }
    ensures grows { Grows store.old store.new }
    ensures only { IfOk result (λ r. Gives store.new r (Restricts frame (tree_at store.old a))) }
{
    let leaf = stripped(alloc, &frame.cell(), store.leaf(a).copies())?;
    store.put_leaf(alloc, leaf)
}

// Copies without what a cell fixes.
fn stripped(alloc: Global, cell: &Cell, copies: &[Assignments]) -> Result<Leaf, AllocError>
    ensures { IfOk result (λ r. AddsCopies cell.now copies.now [] r) }
{
    let mut leaf = Leaf::empty(alloc);
    for c in copies {
        leaf.put(c.stripped(alloc, cell)?)?;
    }
    Ok(leaf)
}
