//! Copies that leave by one port and set no header field that their path leaves open.
//!
//! Layer: rows and packets; private. Called by `made`.
ghost use Rattle.std.specs.Prelude.{◌≡◌, ◌↔◌, IsTrue, IfOk, IfSome};
ghost use Rattle.fdd_nodes.specs.Cells.{IsValid};
ghost use Rattle.leaf_actions.specs.Staying.{AllClimb, AllStay, StayAt, Stays, stayed};

use crate::made::{port_number, push_changes, push_tag};
use crate::order::out_of;
use crate::view::{PortView, SwitchPort};
use fdd_nodes::{Assignments, Cell};
use nk_values::{Action, Actions, Field, List, Lit};
use std::alloc::{AllocError, Global};

// The port by which all copies leave, if there is one and they set only header fields that the cell fixes.
pub(crate) fn common_port(
    cell: &Cell,
    copies: &[Assignments],
    view: &PortView,
) -> Option<SwitchPort>
    ensures { IfSome result (λ p. StayAt view.now cell.now p copies.now) }
{
    let out = out_of(view, copies.first()?);
    let port = view.port(out)?;
    if all_stay(cell, copies, view, out) {
        Some(port)
    } else {
        None
    }
}

// Whether all copies leave by a port and set only header fields that the cell fixes.
fn all_stay(cell: &Cell, copies: &[Assignments], view: &PortView, out: u64) -> bool
    ensures { IsTrue result ↔ AllStay view.now cell.now out copies.now }
{
    for copy in copies {
        if out_of(view, copy) != out || !stays(cell, copy.lits()) {
            return false;
        }
    }
    true
}

// Whether a copy sets only the port and fields that the cell fixes.
fn stays(cell: &Cell, lits: &[Lit]) -> bool
    ensures { IsTrue result ↔ Stays cell.now lits.now }
{
    for l in lits {
        if l.field() != Field::Pt && cell.is_unset(l.field()) {
            return false;
        }
    }
    true
}

// The actions of such copies, which are in order as they stand in their leaf.
pub(crate) fn stayed(
    alloc: Global,
    cell: &Cell,
    copies: &[Assignments],
    view: &PortView,
    port: SwitchPort,
) -> Result<Actions, AllocError>
    requires climb { AllClimb cell.now cell.now copies.now }
    requires valid { IsValid cell.now }
    ensures { IfOk result (λ as'. as' ≡ stayed view.now cell.now cell.now view.now.kind port copies.now) }
{
    let output = Action::Output(port_number(view, port.pt));
    // room for a changed field and an output each, and for some copies that change two
    let room = 2 * copies.len() + copies.len() / 8;
    let mut actions = List::of(Vec::with_capacity(alloc, room)?);
    let mut known = *cell.generic();
    let mut kind = view.kind;
    for copy in copies {
        let next = copy.apply(cell.generic());
        push_changes(&mut actions, &known, &next)?;
        push_tag(&mut actions, view.stamp, kind, port.kind)?;
        actions.push(output)?;
        known = next;
        kind = port.kind;
    }
    Actions::of(alloc, actions)
}
