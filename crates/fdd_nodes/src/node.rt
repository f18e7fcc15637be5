//! Diagrams as trees: tests, and leaves at their ends.
//!
//! Layer: diagrams; public. Called by many modules here, and by many crates.
ghost use Rattle.std.specs.Prelude.{◌≡◌};

use crate::leaf::Leaf;
use nk_values::{Field, Lit, Packet};
use std::alloc::{AllocError, Global};
use std::rc::Rc;

/// A leaf, or a test with the branch where it holds and the branch where it doesn't.
#[derive(Drop)]
pub enum Node {
    Leaf(Leaf),
    Test(Lit, Rc<Node>, Rc<Node>),
}

impl Node {
    ghost use Rattle.std.specs.Prelude.{◌≤◌, ◌<◌, ◌↔◌, IsTrue, IfOk, MatchOption};
    ghost use Rattle.fdd_nodes.specs.declared.node.Node.{size-Node};
    ghost use Rattle.fdd_nodes.specs.Roots.{IsLeaf, HasRoot, IsAfter, IsFirst, then_part, else_part, part_with};
    ghost use Rattle.fdd_nodes.specs.Trees.{tree, leaf_at};

    /// The leaf on a packet's path.
    pub fn leaf_of(&self, packet: &Packet) -> &Leaf
        ensures { result.now ≡ leaf_at (tree self.now) packet.now }
    {
        match self {
            Node::Leaf(leaf) => leaf,
            Node::Test(l, t, e) => {
                if l.holds(packet) {
                    t.leaf_of(packet)
                } else {
                    e.leaf_of(packet)
                }
            }
        }
    }

    /// The part where a literal holds, if the first test doesn't come before it.
    pub fn then_of(&self, l: &Lit) -> &Node
        ensures part { tree result.now ≡ then_part l.now (tree self.now) }
        ensures within { size-Node result.now ≤ size-Node self.now }
        ensures smaller { HasRoot l.now (tree self.now) → size-Node result.now < size-Node self.now }
    {
        match self {
            Node::Leaf(_) => self,
            Node::Test(m, t, _) => { if m.is(l) { t } else { self } }
        }
    }

    /// The part where a literal doesn't hold, if the first test doesn't come before it.
    pub fn else_of(&self, l: &Lit) -> &Node
        ensures part { tree result.now ≡ else_part l.now (tree self.now) }
        ensures within { size-Node result.now ≤ size-Node self.now }
        ensures smaller { HasRoot l.now (tree self.now) → size-Node result.now < size-Node self.now }
    {
        match self {
            Node::Leaf(_) => self,
            Node::Test(m, _, e) => { if m.is(l) { e } else { self } }
        }
    }

    /// Where the tests of a field lead that stand first, if the field holds `n`.
    pub fn part_with(&self, f: Field, n: u64) -> &Node
        ensures { tree result.now ≡ part_with f n (tree self.now) }
    {
        match self {
            Node::Leaf(_) => self,
            Node::Test(l, t, e) => {
                if l.field().place() != f.place() {
                    self
                } else if l.value() == n {
                    t
                } else {
                    e.part_with(f, n)
                }
            }
        }
    }

    /// Whether the first test, if there is one, comes after a literal.
    pub fn comes_after(&self, l: &Lit) -> bool
        ensures { IsTrue result ↔ IsAfter l.now (tree self.now) }
    {
        match self {
            Node::Leaf(_) => true,
            Node::Test(m, _, _) => l.precedes(m),
        }
    }

    /// The first of the tests at two roots, or none if both are leaves.
    pub fn first_test(&self, other: &Node) -> Option<Lit>
        ensures { MatchOption result (IsLeaf (tree self.now) × IsLeaf (tree other.now))
            (λ l. IsFirst l (tree self.now) (tree other.now)) }
    {
        match self {
            Node::Leaf(_) => match other {
                Node::Leaf(_) => None,
                Node::Test(m, _, _) => Some(*m),
            },
            Node::Test(l, _, _) => match other {
                Node::Leaf(_) => Some(*l),
                Node::Test(m, _, _) => { if m.precedes(l) { Some(*m) } else { Some(*l) } }
            },
        }
    }

    /// The same diagram again. It shares the branches, so no part of it is walked but a leaf.
    pub fn copy(&self, alloc: Global) -> Result<Node, AllocError>
        ensures { IfOk result (λ r. tree r ≡ tree self.now) }
    {
        match self {
            Node::Leaf(leaf) => {
                let again = leaf.copy(alloc)?;
                Ok(Node::Leaf(again))
            }
            Node::Test(l, t, e) => {
                let yes = t.clone()?;
                let no = e.clone()?;
                Ok(Node::Test(*l, yes, no))
            }
        }
    }
}
