//! What names values: diagrams and paths.
//!
//! Layer: diagrams; public. Called by `differ` and `fresh` here, and by fdd_apart, fdd_compile and fdd_star.
ghost use Rattle.std.specs.Prelude.{◌↔◌, ◌++◌, IsTrue, List};
ghost use Rattle.nk_values.specs.declared.lit.Lit.{Lit};
ghost use Rattle.fdd_nodes.specs.Names.{literals};
ghost use Rattle.fdd_nodes.specs.Paths.{tests_on};
ghost use Rattle.fdd_nodes.specs.Trees.{tree};
ghost use Rattle.fdd_differ.specs.Unnamed.{NamesAt, CopiesName, TreeNames};

use fdd_nodes::{Assignments, Node, Path};
use nk_values::{Field, Lit};

/// What names values of fields by its literals.
pub trait Names {
    /// The literals.
    ghost names: { Self → List Lit };

    /// Whether one of them is of this field and has this value.
    fn has(&self, f: Field, value: u64) -> bool
        ensures { IsTrue result ↔ NamesAt (names self.now) f value };
}

/// A diagram names what it tests and assigns.
impl Names for Node {
    ghost names = { λ a. literals (tree a) };

    fn has(&self, f: Field, value: u64) -> bool {
        node_has(self, f, value)
    }
}

/// A path names its tests.
impl Names for Path {
    ghost names = { tests_on };

    fn has(&self, f: Field, value: u64) -> bool {
        if list_has(self.trues(), f, value) {
            return true;
        }
        list_has(self.falses(), f, value)
    }
}

/// Literals in a list.
#[derive(Clone, Copy)]
pub struct LiteralList<'a> {
    pub lits: &'a [Lit],
}

/// A list of literals names them.
impl Names for LiteralList<'_> {
    ghost names = { λ d. d.lits.now };

    fn has(&self, f: Field, value: u64) -> bool {
        list_has(self.lits, f, value)
    }
}

/// Two diagrams side by side.
#[derive(Clone, Copy)]
pub struct Pair<'a> {
    pub a: &'a Node,
    pub b: &'a Node,
}

/// Two diagrams name what either names.
impl Names for Pair<'_> {
    ghost names = { λ d. literals (tree d.a.now) ++ literals (tree d.b.now) };

    fn has(&self, f: Field, value: u64) -> bool {
        if node_has(self.a, f, value) {
            return true;
        }
        node_has(self.b, f, value)
    }
}

fn node_has(a: &Node, f: Field, value: u64) -> bool
    ensures { IsTrue result ↔ TreeNames (tree a.now) f value }
{
    match a {
        Node::Leaf(leaf) => copies_have(leaf.copies(), f, value),
        Node::Test(l, t, e) => {
            if l.field().place() == f.place() && l.value() == value {
                return true;
            }
            if node_has(t, f, value) {
                return true;
            }
            node_has(e, f, value)
        }
    }
}

fn copies_have(copies: &[Assignments], f: Field, value: u64) -> bool
    ensures { IsTrue result ↔ CopiesName copies.now f value }
{
    for c in copies {
        if list_has(c.lits(), f, value) {
            return true;
        }
    }
    false
}

fn list_has(lits: &[Lit], f: Field, value: u64) -> bool
    ensures { IsTrue result ↔ NamesAt lits.now f value }
{
    for l in lits {
        if l.field().place() == f.place() && l.value() == value {
            return true;
        }
    }
    false
}
