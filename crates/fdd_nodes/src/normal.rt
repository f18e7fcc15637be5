//! Whether a diagram is normal.
//!
//! Layer: diagrams; private. Called by `fdd`.
ghost use Rattle.std.specs.Prelude.{◌≡◌, ◌↔◌, IsTrue};
ghost use Rattle.fdd_nodes.specs.Cells.{Respects};
ghost use Rattle.fdd_nodes.specs.Names.{IsFew};
ghost use Rattle.fdd_nodes.specs.Normals.{IsNormal, IsPast, TellsTight};
ghost use Rattle.fdd_nodes.specs.Trees.{tree, IsOrdered};

use crate::apart::parting;
use crate::cell::Cell;
use crate::leaf::are_disjoint_from;
use crate::node::Node;
use nk_values::Lit;

/// Whether the tests are ordered, no leaf assigns what its path fixes, and no test is redundant.
pub fn is_normal(a: &Node) -> bool
    requires { IsFew (tree a.now) }
    ensures { IsTrue result ↔ IsNormal (tree a.now) }
{
    if !is_ordered(a) || !respects(a, &Cell::whole()) {
        return false;
    }
    is_tight(a)
}

fn is_past(a: &Node, l: &Lit) -> bool
    ensures { IsTrue result ↔ IsPast l.now (tree a.now) }
{
    match a {
        Node::Leaf(_) => true,
        Node::Test(m, _, _) => l.field().place() < m.field().place(),
    }
}

fn is_ordered(a: &Node) -> bool
    ensures { IsTrue result ↔ IsOrdered (tree a.now) }
{
    match a {
        Node::Leaf(_) => true,
        Node::Test(l, t, e) => {
            if !is_past(t, l) || !e.comes_after(l) {
                return false;
            }
            if !is_ordered(t) {
                return false;
            }
            is_ordered(e)
        }
    }
}

fn respects(a: &Node, cell: &Cell) -> bool
    ensures { IsTrue result ↔ Respects cell.now (tree a.now) }
{
    match a {
        Node::Leaf(leaf) => are_disjoint_from(leaf.copies(), cell),
        Node::Test(l, t, e) => respects(t, &cell.with(l)) && respects(e, cell),
    }
}

fn is_tight(a: &Node) -> bool
    ensures { TellsTight (tree a.now) result }
{
    match a {
        Node::Leaf(_) => true,
        Node::Test(l, t, e) => {
            let Some(_inner) = parting(&Cell::of(l), t, e) else {
                return false;
            };
            if !is_tight(t) {
                return false;
            }
            is_tight(e)
        }
    }
}
