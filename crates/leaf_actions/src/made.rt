//! The actions of a leaf.
//!
//! Layer: rows and packets; public. Called by `alone`, `moves` and `staying` here, and by table_emitter and
//! table_tests.
ghost use Rattle.std.specs.List.{AllByRecursion};
ghost use Rattle.std.specs.Prelude.{◌≡◌, ◌≢◌, OnOk, IfOk, IfErr, IfSome, IfNone, true, [], ◌∷◌, ◌++◌};
ghost use Rattle.nk_values.specs.Fitting.{FitsAction};
ghost use Rattle.nk_values.specs.Ranges.{IsValue};
ghost use Rattle.nk_values.specs.Tags.{IsVlanId};
ghost use Rattle.fdd_nodes.specs.Cells.{IsValid};
ghost use Rattle.leaf_actions.specs.Acting.{ActsAs};
ghost use Rattle.leaf_actions.specs.Chains.{keeps, Climbs};
ghost use Rattle.leaf_actions.specs.Listing.{setting, change, changed, retagged, port_number, listed, IsActionList};
ghost use Rattle.leaf_actions.specs.Listing.{RefusesLeaf};
ghost use Rattle.leaf_actions.specs.Settable.{AreSettable, settable};

use crate::alone::listed_alone;
use crate::fault::{ActionsError, ActionsFault};
use crate::moves::{all_move, moved};
use crate::order::{climbs, listing};
use crate::pairs::first_apart;
use crate::route::Route;
use crate::shared::SharedActions;
use crate::staying::{common_port, stayed};
use crate::view::PortView;
use fdd_nodes::{Cell, Leaf};
use nk_values::{Action, Actions, Field, IN_PORT, List, Packet, PortKind};
use std::alloc::{AllocError, Global};

/// The actions that make the copies of a leaf, for the packets of a cell at a port (OpenFlow 1.0.0, 5.2.4). Copies to
/// ports that are not declared are left out. The others are listed by the number of header fields that they set and the
/// cell does not fix, then by port and assignments. The error carries the first two copies that no order makes both.
/// The cells that paths fix are valid. Equal lists of two actions may take the same memory.
pub fn actions(
    alloc: Global,
    cell: &Cell,
    leaf: &Leaf,
    view: &PortView,
    shared: &SharedActions,
) -> Result<Actions, ActionsError>
    requires valid { IsValid cell.now }
    requires settable { AreSettable leaf.now }
    requires stamp { IsVlanId view.now.stamp }
    ensures list { IfOk result (IsActionList cell.now view.now leaf.now) }
    ensures acts { IfOk result (ActsAs cell.now view.now leaf.now) }
    ensures fits { IfOk result (AllByRecursion FitsAction) }
    ensures barred { IfErr result (RefusesLeaf cell.now view.now leaf.now) }
{
    let copies = leaf.copies();
    if let [copy] = copies {
        return Ok(listed_alone(alloc, cell, copy, view, shared)?);
    }
    if let Some(port) = common_port(cell, copies, view) {
        return Ok(stayed(alloc, cell, copies, view, port)?);
    }
    let routes = listing(alloc, cell, copies, view)?;
    if all_move(copies) {
        return Ok(moved(alloc, &routes, view)?);
    }
    if climbs(cell, &routes) {
        return Ok(listed(alloc, cell, &routes, view)?);
    }
    match first_apart(cell, &routes)? {
        Some(fault) => Err(ActionsError::Fault(fault)),
        None => unreachable!(),
    }
}

// The actions of copies in order.
fn listed(
    alloc: Global,
    cell: &Cell,
    routes: &[Route],
    view: &PortView,
) -> Result<Actions, AllocError>
    requires climbs { Climbs cell.now cell.now routes.now }
    requires valid { IsValid cell.now }
    ensures { IfOk result (λ as'. as' ≡ listed view.now cell.now cell.now view.now.kind routes.now) }
{
    // room for a tag and an output each
    let mut actions = List::of(Vec::with_capacity(alloc, 2 * routes.len())?);
    let mut known = *cell.generic();
    let mut kind = view.kind;
    for route in routes {
        let next = route.copy.apply(cell.generic());
        push_changes(&mut actions, &known, &next)?;
        push_tag(&mut actions, view.stamp, kind, route.kind)?;
        actions.push(Action::Output(port_number(view, route.port)))?;
        known = next;
        kind = route.kind;
    }
    Actions::of(alloc, actions)
}

// Adds what turns the header fields of one packet into those of another.
pub(crate) fn push_changes(
    actions: &mut List<Action>,
    known: &Packet,
    next: &Packet,
) -> Result<(), AllocError>
    requires kept { keeps known.now next.now ≡ true }
    requires valid { IsValid next.now }
    ensures { OnOk result (actions.new ≡ actions.old ++ changed known.now next.now settable) }
{
    let (old, new) = (&known.header, &next.header);
    push_change(actions, Field::EthSrc, old.eth_src, new.eth_src)?;
    push_change(actions, Field::EthDst, old.eth_dst, new.eth_dst)?;
    push_change(actions, Field::Ip4Src, old.ip4_src, new.ip4_src)?;
    push_change(actions, Field::Ip4Dst, old.ip4_dst, new.ip4_dst)?;
    push_change(
        actions,
        Field::TcpSrcPort,
        old.tcp_src_port,
        new.tcp_src_port,
    )?;
    push_change(
        actions,
        Field::TcpDstPort,
        old.tcp_dst_port,
        new.tcp_dst_port,
    )
}

// Adds what turns a number of a field into another.
#[inline]
fn push_change(actions: &mut List<Action>, f: Field, old: u64, new: u64) -> Result<(), AllocError>
    requires { old ≢ new → IsValue f new }
    ensures { OnOk result (actions.new ≡ actions.old ++ change f old new) }
{
    if old == new {
        return Ok(());
    }
    actions.push(setting(f, new))
}

// The action that sets a header field.
fn setting(f: Field, n: u64) -> Action
    requires value { IsValue f n }
    ensures { result ≡ setting f n }
{
    match f {
        Field::EthDst => Action::SetDlDst(n),
        Field::Ip4Src => Action::SetNwSrc(n as u32),
        Field::Ip4Dst => Action::SetNwDst(n as u32),
        Field::TcpSrcPort => Action::SetTpSrc(n as u16),
        Field::TcpDstPort => Action::SetTpDst(n as u16),
        _ => Action::SetDlSrc(n),
    }
}

// Adds what turns the tag of one kind of port into that of another.
pub(crate) fn push_tag(
    actions: &mut List<Action>,
    stamp: u16,
    from: PortKind,
    to: PortKind,
) -> Result<(), AllocError>
    ensures { OnOk result (actions.new ≡ actions.old ++ retagged stamp from to) }
{
    match tag_change(stamp, from, to) {
        Some(change) => actions.push(change),
        None => Ok(()),
    }
}

// What turns the tag of one kind of port into that of another, if these differ.
pub(crate) fn tag_change(stamp: u16, from: PortKind, to: PortKind) -> Option<Action>
    ensures change { IfSome result (λ a. a ∷ [] ≡ retagged stamp from to) }
    ensures none { IfNone result ([] ≡ retagged stamp from to) }
{
    match (from, to) {
        (PortKind::Edge, PortKind::Linked) => Some(Action::SetVlanVid(stamp)),
        (PortKind::Linked, PortKind::Edge) => Some(Action::StripVlan),
        _ => None,
    }
}

// The number by which a port is sent to.
pub(crate) fn port_number(view: &PortView, port: u16) -> u16
    ensures { result ≡ port_number view.now port }
{
    if port == view.pt { IN_PORT } else { port }
}
