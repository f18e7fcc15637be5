//! Copies that set no header field.
//!
//! Layer: rows and packets; private. Called by `alone`, `fields` and `made`.
ghost use Rattle.std.specs.Prelude.{◌≡◌, ◌↔◌, IsTrue, IfOk};
ghost use Rattle.leaf_actions.specs.Moves.{Moves, AllMove, moved};

use crate::made::{port_number, push_tag};
use crate::route::Route;
use crate::view::PortView;
use fdd_nodes::Assignments;
use nk_values::{Action, Actions, Field, List, Lit};
use std::alloc::{AllocError, Global};

// Whether no copy sets a header field.
pub(crate) fn all_move(copies: &[Assignments]) -> bool
    ensures { IsTrue result ↔ AllMove copies.now }
{
    for copy in copies {
        if !moves(copy.lits()) {
            return false;
        }
    }
    true
}

// Whether a copy sets no header field.
pub(crate) fn moves(lits: &[Lit]) -> bool
    ensures { IsTrue result ↔ Moves lits.now }
{
    for l in lits {
        if l.field() != Field::Pt {
            return false;
        }
    }
    true
}

// The actions of such copies in order.
pub(crate) fn moved(alloc: Global, routes: &[Route], view: &PortView) -> Result<Actions, AllocError>
    ensures { IfOk result (λ as'. as' ≡ moved view.now view.now.kind routes.now) }
{
    // room for a tag and an output each
    let mut actions = List::of(Vec::with_capacity(alloc, 2 * routes.len())?);
    let mut kind = view.kind;
    for route in routes {
        push_tag(&mut actions, view.stamp, kind, route.kind)?;
        actions.push(Action::Output(port_number(view, route.port)))?;
        kind = route.kind;
    }
    Actions::of(alloc, actions)
}
