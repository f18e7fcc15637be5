//! The actions of a leaf with one copy.
//!
//! Layer: rows and packets; private. Called by `made`.
ghost use Rattle.std.specs.Prelude.{◌≡◌, IfOk, [], ◌∷◌};
ghost use Rattle.fdd_nodes.specs.Cells.{IsValid};
ghost use Rattle.leaf_actions.specs.Listing.{listed};
ghost use Rattle.leaf_actions.specs.Routes.{routes_of};

use crate::made::{port_number, push_changes, push_tag, tag_change};
use crate::moves::moves;
use crate::order::out_of;
use crate::shared::SharedActions;
use crate::view::PortView;
use fdd_nodes::{Assignments, Cell};
use nk_values::{Action, Actions, List};
use std::alloc::{AllocError, Global};

// The actions of a copy that is alone. Most copies set no header field.
pub(crate) fn listed_alone(
    alloc: Global,
    cell: &Cell,
    copy: &Assignments,
    view: &PortView,
    shared: &SharedActions,
) -> Result<Actions, AllocError>
    requires { IsValid cell.now }
    ensures { IfOk result (λ as'. as' ≡ listed view.now cell.now cell.now view.now.kind
        (routes_of view.now cell.now (copy.now ∷ []))) }
{
    let Some(port) = view.port(out_of(view, copy)) else {
        return Ok(Actions::none());
    };
    let output = port_number(view, port.pt);
    if moves(copy.lits()) {
        return match tag_change(view.stamp, view.kind, port.kind) {
            Some(change) => shared.pair(alloc, port.pt, change, output),
            None => Ok(Actions::one(Action::Output(output))),
        };
    }
    let known = cell.generic();
    let mut actions = List::of(Vec::with_capacity(alloc, 3)?);
    push_changes(&mut actions, known, &copy.apply(known))?;
    push_tag(&mut actions, view.stamp, view.kind, port.kind)?;
    actions.push(Action::Output(output))?;
    Actions::of(alloc, actions)
}
