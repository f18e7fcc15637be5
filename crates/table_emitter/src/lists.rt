//! The rows of a port.
//!
//! Layer: rows and packets; private. Called by `emitting`.
ghost use Rattle.std.specs.Prelude.{◌≡◌, ◌+◌, ◌-◌, ◌<◌, ◌≤◌, [], ◌∷◌, ◌++◌, length, OnOk, IfOk, IfErr};
ghost use Rattle.nk_values.specs.Tags.{IsVlanId};
ghost use Rattle.fdd_nodes.specs.Cells.{IsValid};
ghost use Rattle.fdd_nodes.specs.Paths.{no_tests};
ghost use Rattle.fdd_nodes.specs.Trees.{Leaf as TreeLeaf, tree};
ghost use Rattle.leaf_actions.specs.Settable.{AreSettable};
ghost use Rattle.table_emitter.specs.Emission.{CanBeMade};
ghost use Rattle.table_emitter.specs.Entries.{path_rows, AreRows, AddsFrom};
ghost use Rattle.table_emitter.specs.Faults.{RefusesPort, BarsFrom, BarsRow};

use crate::acting::row_actions;
use crate::fault::EmitError;
use crate::kinds::FrameKinds;
use crate::passing::past_barred;
use crate::patterns::{RowCells, cells_of, pattern_of};
use fdd_nodes::{Cell, Leaf, Node};
use leaf_actions::{PortView, SharedActions};
use nk_values::{Actions, EmitFault, MOST_PORT_ROWS, Pattern, Row, RowList};
use std::alloc::{AllocError, Global};

// What the rows of a port have in common: its view, the priority of the first row, and the actions that they share.
#[derive(Clone, Copy)]
struct Listing<'a> {
    view: &'a PortView,
    top: u16,
    shared: &'a SharedActions,
}

// The rows of a port: those of all paths of a diagram, with priorities from `top` down.
pub(crate) fn list_port(
    alloc: Global,
    part: &Node,
    view: &PortView,
    top: u16,
    shared: &SharedActions,
) -> Result<RowList, EmitError>
    requires made { CanBeMade (tree part.now) }
    requires stamp { IsVlanId view.now.stamp }
    requires top { 16000 ≤ top }
    ensures rows { IfOk result (AreRows view.now top (path_rows no_tests (tree part.now))) }
    ensures bars { IfErr result (RefusesPort view.now 0 (path_rows no_tests (tree part.now))) }
{
    let mut rows = Vec::new(alloc);
    let listing = Listing { view, top, shared };
    walk(
        alloc,
        part,
        &Cell::whole(),
        FrameKinds::untested(),
        &listing,
        &mut rows,
    )?;
    // The vector grew by doubling, so it may have room for twice as many. The next port takes what is given back.
    rows.shrink_to_fit();
    Ok(RowList::of(rows))
}

// Adds the rows of a part, on each path that fixes this cell and says these kinds. A branch that no well-shaped packet
// takes is left out, since it has none.
fn walk(
    alloc: Global,
    part: &Node,
    cell: &Cell,
    kinds: FrameKinds,
    listing: &Listing<'_>,
    rows: &mut Vec<Row>,
) -> Result<(), EmitError>
    requires made { CanBeMade (tree part.now) }
    requires valid { IsValid cell.now }
    requires stamp { IsVlanId listing.now.view.now.stamp }
    requires top { 16000 ≤ listing.now.top }
    requires few { length rows.old.items ≤ 16000 }
    ensures few { OnOk result (length rows.new.items ≤ 16000) }
    ensures rows { OnOk result
        (AddsFrom listing.now.view.now listing.now.top cell.now kinds (tree part.now) rows.old.items rows.new.items) }
    ensures bars { IfErr result (BarsFrom listing.now.view.now (length rows.old.items) cell.now kinds (tree part.now)) }
{
    let mut node = part;
    let mut known = kinds;
    loop {
        node = past_barred(node, known);
        match node {
            Node::Leaf(leaf) => return list_leaf(alloc, cell, leaf, known, listing, rows),
            Node::Test(l, t, e) => {
                let within = known.after_true(l);
                if !within.is_void() {
                    walk(alloc, t, &cell.with(l), within, listing, rows)?;
                }
                known = known.after_false(l);
                node = e;
            }
        }
    }
}

// Adds the rows of a leaf, on each such path.
fn list_leaf(
    alloc: Global,
    cell: &Cell,
    leaf: &Leaf,
    kinds: FrameKinds,
    listing: &Listing<'_>,
    rows: &mut Vec<Row>,
) -> Result<(), EmitError>
    requires made { AreSettable leaf.now }
    requires valid { IsValid cell.now }
    requires stamp { IsVlanId listing.now.view.now.stamp }
    requires top { 16000 ≤ listing.now.top }
    requires few { length rows.old.items ≤ 16000 }
    ensures few { OnOk result (length rows.new.items ≤ 16000) }
    ensures rows { OnOk result
        (AddsFrom listing.now.view.now listing.now.top cell.now kinds (TreeLeaf leaf.now) rows.old.items
        rows.new.items) }
    ensures bars { IfErr result
        (BarsFrom listing.now.view.now (length rows.old.items) cell.now kinds (TreeLeaf leaf.now)) }
{
    match cells_of(kinds, cell) {
        RowCells::None => Ok(()),
        RowCells::One(only) => {
            let made = row_actions(alloc, cell, leaf, listing.view, listing.shared)?;
            push_row(pattern_of(listing.view, &only), made, listing, rows)
        }
        RowCells::Both(tcp, udp) => {
            let made = row_actions(alloc, cell, leaf, listing.view, listing.shared)?;
            let copied = made.copy()?;
            push_row(pattern_of(listing.view, &tcp), copied, listing, rows)?;
            push_row(pattern_of(listing.view, &udp), made, listing, rows)
        }
    }
}

// Adds one row, if the port may have one more.
fn push_row(
    pattern: Pattern,
    actions: Actions,
    listing: &Listing<'_>,
    rows: &mut Vec<Row>,
) -> Result<(), EmitError>
    requires top { 16000 ≤ listing.now.top }
    ensures row { OnOk result
        (rows.new.items ≡ rows.old.items ++ record
        { pattern = pattern; priority = listing.now.top - length rows.old.items; actions = actions } ∷ []) }
    ensures room { OnOk result (length rows.old.items < 16000) }
    ensures bars { IfErr result (BarsRow listing.now.view.now (length rows.old.items)) }
{
    let count = rows.len();
    if count >= MOST_PORT_ROWS {
        return Err(EmitError::Fault(EmitFault::TooManyRows {
            sw: listing.view.sw,
            pt: listing.view.pt,
        }));
    }
    let row = Row {
        pattern,
        priority: listing.top - count as u16,
        actions,
    };
    match rows.push(row) {
        Ok(()) => Ok(()),
        Err(_) => Err(EmitError::Memory),
    }
}
