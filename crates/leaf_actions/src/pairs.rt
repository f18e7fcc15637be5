//! Copies that bar a listing.
//!
//! Layer: rows and packets; private. Called by `made`.
ghost use Rattle.std.specs.Prelude.{◌≡◌, IfOk};
ghost use Rattle.leaf_actions.specs.Listing.{apart, first_from, first_apart};

use crate::fault::ActionsFault;
use crate::fields::first_beyond;
use crate::route::Route;
use fdd_nodes::Cell;
use std::alloc::AllocError;

// The earliest copy that is apart from a later one, with the earliest of these.
pub(crate) fn first_apart(cell: &Cell, routes: &[Route]) -> Result<Option<ActionsFault>, AllocError>
    ensures { IfOk result (λ o. o ≡ first_apart cell.now routes.now) }
{
    for i in 0..routes.len() {
        if let Some(found) = first_from(cell, &routes[i], &routes[i + 1..])? {
            return Ok(Some(found));
        }
    }
    Ok(None)
}

// The first of some copies that is apart from another.
fn first_from(cell: &Cell, a: &Route, routes: &[Route]) -> Result<Option<ActionsFault>, AllocError>
    ensures { IfOk result (λ o. o ≡ first_from cell.now a.now routes.now) }
{
    for b in routes {
        if let Some(found) = apart(cell, a, b)? {
            return Ok(Some(found));
        }
    }
    Ok(None)
}

// Two copies, if each changes a field that the other does not.
fn apart(cell: &Cell, a: &Route, b: &Route) -> Result<Option<ActionsFault>, AllocError>
    ensures { IfOk result (λ o. o ≡ apart cell.now a.now b.now) }
{
    let Some(field_a) = first_beyond(cell, &a.copy, &b.copy) else {
        return Ok(None);
    };
    let Some(field_b) = first_beyond(cell, &b.copy, &a.copy) else {
        return Ok(None);
    };
    Ok(Some(ActionsFault {
        a: a.copy()?,
        b: b.copy()?,
        field_a,
        field_b,
    }))
}
