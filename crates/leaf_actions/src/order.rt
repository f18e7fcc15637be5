//! Copies in the order in which they are listed, and whether they can be.
//!
//! Layer: rows and packets; private. Called by `alone`, `made` and `staying`.
ghost use Rattle.std.specs.Prelude.{◌≡◌, ◌↔◌, IsTrue, IfOk};
ghost use Rattle.leaf_actions.specs.Routes.{out_of, routes_of, IsListing};
ghost use Rattle.leaf_actions.specs.Chains.{loses, keeps_fields, keeps, Climbs};

use crate::fields::{SETTABLE, change_count};
use crate::route::Route;
use crate::view::PortView;
use fdd_nodes::{Assignments, Cell};
use nk_values::Field;
use std::alloc::{AllocError, Global};

// The copies that leave by declared ports, in the order of listing.
pub(crate) fn listing(
    alloc: Global,
    cell: &Cell,
    copies: &[Assignments],
    view: &PortView,
) -> Result<Vec<Route>, AllocError>
    ensures { IfOk result (λ rs. IsListing view.now cell.now copies.now rs.items) }
{
    let mut routes = routes_of(alloc, cell, copies, view)?;
    routes.sort()?;
    Ok(routes)
}

fn routes_of(
    alloc: Global,
    cell: &Cell,
    copies: &[Assignments],
    view: &PortView,
) -> Result<Vec<Route>, AllocError>
    ensures { IfOk result (λ rs. rs.items ≡ routes_of view.now cell.now copies.now) }
{
    let mut routes = Vec::with_capacity(alloc, copies.len())?;
    for copy in copies {
        if let Some(port) = view.port(out_of(view, copy)) {
            routes.push(Route {
                count: change_count(cell, copy),
                port: port.pt,
                kind: port.kind,
                copy: copy.copy()?,
            })?;
        }
    }
    Ok(routes)
}

// The port at which a copy stands.
pub(crate) fn out_of(view: &PortView, copy: &Assignments) -> u64
    ensures { result ≡ out_of view.now copy.now }
{
    match copy.get(Field::Pt) {
        Some(n) => n,
        None => u64::from(view.pt),
    }
}

// Whether each copy changes all that the one before it changes, beginning with what a cell fixes.
pub(crate) fn climbs(cell: &Cell, routes: &[Route]) -> bool
    ensures { IsTrue result ↔ Climbs cell.now cell.now routes.now }
{
    let mut known = *cell;
    for route in routes {
        let next = cell.after(&route.copy);
        if !keeps(&known, &next) {
            return false;
        }
        known = next;
    }
    true
}

// Whether each header field that the first cell fixes is fixed by the second.
fn keeps(known: &Cell, next: &Cell) -> bool
    ensures { result ≡ keeps known.now next.now }
{
    keeps_fields(known, next, &SETTABLE)
}

fn keeps_fields(known: &Cell, next: &Cell, fields: &[Field]) -> bool
    ensures { result ≡ keeps_fields known.now next.now fields.now }
{
    for f in fields {
        if loses(known, next, *f) {
            return false;
        }
    }
    true
}

// Whether a field is fixed in the first cell and open in the second.
fn loses(known: &Cell, next: &Cell, f: Field) -> bool
    ensures { result ≡ loses known.now next.now f }
{
    !known.is_unset(f) && next.is_unset(f)
}
