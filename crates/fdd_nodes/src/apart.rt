//! Where two diagrams answer apart.
//!
//! Layer: diagrams; public. Called by `normal` here, and by diagram_tests and fdd_differ.
ghost use Rattle.std.specs.Prelude.{◌≡◌, MatchOption};
ghost use Rattle.fdd_nodes.specs.Cells.{Alike, Parts};
ghost use Rattle.fdd_nodes.specs.Roots.{IsLeaf};
ghost use Rattle.fdd_nodes.specs.Trees.{tree};

use crate::cell::{Cell, Knowledge};
use crate::node::Node;

/// A cell within this one in which two diagrams answer apart, or none if they answer alike on all its packets.
///
/// The diagrams are walked side by side, to the first two leaves that differ.
pub fn parting(cell: &Cell, a: &Node, b: &Node) -> Option<Cell>
    ensures { MatchOption result (Alike cell.now (tree a.now) (tree b.now)) (Parts cell.now (tree a.now) (tree b.now)) }
{
    let Some(l) = a.first_test(b) else {
        return leaf_parting(cell, a, b);
    };
    match cell.knows(&l) {
        Knowledge::Unset => match parting(&cell.with(&l), a.then_of(&l), b.then_of(&l)) {
            Some(inner) => Some(inner),
            None => parting(cell, a.else_of(&l), b.else_of(&l)),
        },
        Knowledge::Yes => parting(cell, a.then_of(&l), b.then_of(&l)),
        Knowledge::No => parting(cell, a.else_of(&l), b.else_of(&l)),
    }
}

fn leaf_parting(cell: &Cell, a: &Node, b: &Node) -> Option<Cell>
    requires leaf_a { IsLeaf (tree a.now) }
    requires leaf_b { IsLeaf (tree b.now) }
    ensures { MatchOption result (Alike cell.now (tree a.now) (tree b.now)) (Parts cell.now (tree a.now) (tree b.now)) }
{
    let packet = cell.generic();
    if a.leaf_of(packet).makes_same(b.leaf_of(packet), packet) {
        None
    } else {
        Some(*cell)
    }
}
