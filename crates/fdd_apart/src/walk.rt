//! A cell in which two diagrams of a store differ, found without a step back.
//!
//! Layer: diagrams; private. Called by `finding`.
ghost use Rattle.std.specs.Prelude.{◌≡◌, ◌≢◌, ◌↔◌, IfOk, IsTrue, MatchOption};
ghost use Rattle.fdd_nodes.specs.Roots.{IsLeaf, HasRoot, IsFirst, IsFrom};
ghost use Rattle.fdd_store.specs.Canonical.{IsCanonical};
ghost use Rattle.fdd_store.specs.Stores.{Has, Gives, Grows, tree_at};
ghost use Rattle.fdd_store.specs.Results.{Rests};
ghost use Rattle.fdd_apart.specs.Walks.{IsReady, CellApart};

use fdd_nodes::Cell;
use fdd_store::{Id, Look, Store, ids_are_diagrams};
use nk_values::Lit;
use std::alloc::{AllocError, Global};

/// A cell, within another, on which two diagrams answer apart: each packet of it that holds no other literal of theirs.
///
/// Diagrams of a store are one if they answer alike. So if their else branches at the first test are two, there is a
/// difference there, and otherwise there is one where the test holds. No branch is looked at twice.
pub(crate) fn cell_apart(
    alloc: Global,
    store: &mut Store,
    x: Id,
    y: Id,
    cell: &Cell,
) -> Result<Cell, AllocError>
    requires has_x { Has store.old x }
    requires has_y { Has store.old y }
    requires two { tree_at store.old x ≢ tree_at store.old y }
    requires ready_x { IsReady cell.now (tree_at store.old x) }
    requires ready_y { IsReady cell.now (tree_at store.old y) }
    ensures grows { Grows store.old store.new }
    ensures apart { IfOk result (λ q. CellApart cell.now (tree_at store.old x) (tree_at store.old y) q) }
{
    let Some(l) = first_test(store, x, y) else {
        return Ok(*cell);
    };
    let (u, v) = (else_of(store, x, &l), else_of(store, y, &l));
    if !are_one(store, u, v) {
        return cell_apart(alloc, store, u, v, cell);
    }
    let g = store.narrow(alloc, x, l)?;
    let h = store.narrow(alloc, y, l)?;
    cell_apart(alloc, store, g, h, &cell.with(&l))
}

/// Whether two names are of one diagram.
pub(crate) fn are_one(store: &Store, a: Id, b: Id) -> bool
    requires has_a { Has store.now a }
    requires has_b { Has store.now b }
    ensures { IsTrue result ↔ (tree_at store.now a ≡ tree_at store.now b) }
{
    ids_are_diagrams(store, a, b);
    a == b
}

// The first of the tests at two roots, or none if both are leaves.
fn first_test(store: &Store, a: Id, b: Id) -> Option<Lit>
    requires has_a { Has store.now a }
    requires has_b { Has store.now b }
    ensures made_a { IsCanonical (tree_at store.now a) }
    ensures made_b { IsCanonical (tree_at store.now b) }
    ensures first { MatchOption result (IsLeaf (tree_at store.now a) × IsLeaf (tree_at store.now b))
        (λ l. IsFirst l (tree_at store.now a) (tree_at store.now b)) }
{
    let (first, second) = (root_test(store, a), root_test(store, b));
    let Some(l) = first else {
        return second;
    };
    match second {
        None => Some(l),
        Some(m) => { if m.precedes(&l) { Some(m) } else { Some(l) } }
    }
}

fn root_test(store: &Store, a: Id) -> Option<Lit>
    requires { Has store.now a }
    ensures made { IsCanonical (tree_at store.now a) }
    ensures root { MatchOption result (IsLeaf (tree_at store.now a)) (λ l. HasRoot l (tree_at store.now a)) }
{
    match store.look(a) {
        Look::Leaf => None,
        Look::Fork(l, _, _) => Some(l),
    }
}

// The part where a literal does not hold, of a diagram that tests nothing before it.
fn else_of(store: &Store, a: Id, l: &Lit) -> Id
    requires has { Has store.now a }
    requires from { IsFrom l.now (tree_at store.now a) }
    ensures { Gives store.now result (Rests l.now (tree_at store.now a)) }
{
    match store.look(a) {
        Look::Leaf => a,
        Look::Fork(m, _, e) => { if m.is(l) { there(store, e) } else { a } }
    }
}

// The same place, whose diagram is one of the store's.
fn there(store: &Store, a: Id) -> Id
    requires { Has store.now a }
    ensures place { result ≡ a }
    ensures made { IsCanonical (tree_at store.now a) }
{
    let _root = store.look(a);
    a
}
