//! Diagrams that are narrowed to what the iterations from a cell can meet.
//!
//! Layer: diagrams; private. Called by `parts`.
ghost use Rattle.std.specs.Prelude.{IfOk};
ghost use Rattle.fdd_nodes.specs.Names.{IsFew};
ghost use Rattle.fdd_nodes.specs.declared.cell.Knowledge.TheVariants.{No, Yes};
ghost use Rattle.fdd_star.specs.Narrow.{AreBut, IsDiagramAt, IsNarrowed, IsOn};
ghost use Rattle.fdd_store.specs.Looks.{Forked};
ghost use Rattle.fdd_store.specs.Canonical.{IsCanonical};
ghost use Rattle.fdd_store.specs.Stores.{Has, Grows, tree_at};

use crate::cells::add_led_to;
use crate::found::Places;
use crate::scope::Scope;
use crate::shared::is_shared;
use fdd_nodes::{Cell, Knowledge};
use fdd_store::{Id, Look, Store};
use indexmap::IndexSet;
use nk_values::Lit;
use std::alloc::{AllocError, Global};

/// The body of which parts are taken at a cell for the literals that were asked there: that without the tests which
/// come out one way in all iterations from the cell, if it has fewer parts. It makes the same iterations. If the cell
/// fixes what the first copy does and no more, no test comes out one way.
pub(crate) fn narrowed(
    alloc: Global,
    store: &mut Store,
    places: &mut Places,
    scope: &Scope<'_>,
    asked: &[Lit],
) -> Result<Id, AllocError>
    requires has { Has store.old scope.now.body }
    requires few { IsFew (tree_at store.old scope.now.body) }
    ensures grows { Grows store.old store.new }
    ensures body { IfOk result
        (IsDiagramAt store.new (IsNarrowed (tree_at store.old scope.now.body) scope.now.cell.now)) }
{
    if asked.len() < 2 || *scope.cell == Cell::whole().after(scope.first) {
        return Ok(scope.body);
    }
    let many = parts(alloc, store, scope.assigned, scope.body, asked)?;
    if many < 2 {
        return Ok(scope.body);
    }
    let body = on_reached(alloc, store, places, scope.body, scope.cell)?;
    if parts(alloc, store, scope.assigned, body, asked)? < many {
        Ok(body)
    } else {
        Ok(scope.body)
    }
}

// A diagram on the packets of a cell and those that iterations lead to, if they can be told.
fn on_reached(
    alloc: Global,
    store: &mut Store,
    places: &mut Places,
    p: Id,
    cell: &Cell,
) -> Result<Id, AllocError>
    requires has { Has store.old p }
    requires few { IsFew (tree_at store.old p) }
    ensures grows { Grows store.old store.new }
    ensures body { IfOk result (IsDiagramAt store.new (IsNarrowed (tree_at store.old p) cell.now)) }
{
    let mut cells = IndexSet::new(alloc);
    if add_led_to(store, places, &mut cells, p, cell)? {
        on_cells(alloc, store, p, cells.as_slice())
    } else {
        Ok(p)
    }
}

// How many parts are taken for some literals, if those next to one another share them.
fn parts(
    alloc: Global,
    store: &mut Store,
    assigned: &IndexSet<Lit>,
    p: Id,
    asked: &[Lit],
) -> Result<usize, AllocError>
    requires has { Has store.old p }
    requires few { IsFew (tree_at store.old p) }
    ensures { Grows store.old store.new }
{
    let mut count: usize = 0;
    let mut last = None;
    for l in asked {
        let kind = (l.field(), store.cofactor(alloc, p, *l)?);
        if last != Some(kind) {
            count = count.saturating_add(1);
            last = is_shared(store, assigned, p, l).then_some(kind);
        }
    }
    Ok(count)
}

// Some cells, and among them those that have packets which hold a literal, and those that have others.
#[derive(Clone, Copy)]
struct Split<'a> {
    cells: &'a [Cell],
    lit: Lit,
    there: &'a [Cell],
    away: &'a [Cell],
}

// A diagram on the packets of some cells, along its first tests that the cells tell.
#[cycle(on_cells)]
fn on_cells(alloc: Global, store: &mut Store, a: Id, cells: &[Cell]) -> Result<Id, AllocError>
    requires has { Has store.old a }
    requires few { IsFew (tree_at store.old a) }
    ensures grows { Grows store.old store.new }
    ensures on { IfOk result (IsDiagramAt store.new (IsOn cells.now (tree_at store.old a))) }
{
    if cells.is_empty() {
        return Ok(a);
    }
    match store.look(a) {
        Look::Leaf => Ok(a),
        Look::Fork(l, yes, no) => {
            let there = cells_but(alloc, cells, &l, Knowledge::No)?;
            let away = cells_but(alloc, cells, &l, Knowledge::Yes)?;
            let split = Split {
                cells,
                lit: l,
                there: &there,
                away: &away,
            };
            on_sides(alloc, store, a, yes, no, split)
        }
    }
}

// The same of a test, by the cells that have packets which hold it and those that have others: it goes where one of
// them has none, and stays where both have all.
#[cycle(on_cells)]
fn on_sides(
    alloc: Global,
    store: &mut Store,
    a: Id,
    yes: Id,
    no: Id,
    split: Split<'_>,
) -> Result<Id, AllocError>
    requires fork { Forked store.old split.lit yes no (tree_at store.old a) }
    requires has { Has store.old a }
    requires made { IsCanonical (tree_at store.old a) }
    requires few { IsFew (tree_at store.old a) }
    requires there { AreBut split.cells.now split.lit No split.there.now }
    requires away { AreBut split.cells.now split.lit Yes split.away.now }
    ensures grows { Grows store.old store.new }
    ensures on { IfOk result (IsDiagramAt store.new (IsOn split.entry.cells.now (tree_at store.old a))) }
{
    let Split {
        cells,
        lit,
        there,
        away,
    } = split;
    if away.is_empty() {
        return on_cells(alloc, store, yes, there);
    }
    if there.is_empty() {
        return on_cells(alloc, store, no, away);
    }
    if there.len() == cells.len() && away.len() == cells.len() {
        return Ok(a);
    }
    let part = on_cells(alloc, store, yes, there)?;
    let rest = on_cells(alloc, store, no, away)?;
    store.choice(alloc, lit, part, rest)
}

// The cells of some that do not know this of a literal.
fn cells_but(
    alloc: Global,
    cells: &[Cell],
    l: &Lit,
    known: Knowledge,
) -> Result<Vec<Cell>, AllocError>
    ensures { IfOk result (λ r. AreBut cells.now l.now known r.items) }
{
    let mut left = Vec::new(alloc);
    for cell in cells {
        if cell.knows(l) != known {
            left.push(*cell)?;
        }
    }
    Ok(left)
}
