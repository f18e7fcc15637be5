//! Where two diagrams answer apart.
//!
//! Layer: diagrams; public. Called by diagram_tests.
ghost use Rattle.std.specs.Prelude.{MatchOption};
ghost use Rattle.fdd_nodes.specs.Fdds.{tree_of};
ghost use Rattle.fdd_nodes.specs.Names.{AreFew};
ghost use Rattle.fdd_differ.specs.Differ.{AreAlike, Shows};

use crate::fresh::unnamed;
use crate::names::Pair;
use fdd_nodes::{Cell, Fdd, parting};
use nk_values::Packet;

/// A packet in range of which two diagrams make different sets of packets, or none if there is no such packet.
pub fn difference(a: &Fdd, b: &Fdd) -> Option<Packet>
    requires { AreFew (tree_of a.now) (tree_of b.now) }
    ensures { MatchOption result (AreAlike (tree_of a.now) (tree_of b.now)) (Shows (tree_of a.now) (tree_of b.now)) }
{
    let (a, b) = (a.root(), b.root());
    match parting(&Cell::whole(), a, b) {
        None => None,
        Some(cell) => Some(cell.filled(&unnamed(&Pair { a, b }))),
    }
}
