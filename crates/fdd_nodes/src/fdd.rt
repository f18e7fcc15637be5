//! Diagrams as callers see them.
//!
//! Layer: diagrams; public. Called by `names` here, and by many crates.
ghost use Rattle.std.specs.Prelude.{◌≤◌};
ghost use Rattle.fdd_nodes.specs.Trees.{tree, IsOrdered, IsOrderedFrom};
ghost use Rattle.fdd_nodes.specs.Names.{IsFew};
ghost use Rattle.fdd_nodes.specs.Proofs.{IsOrderedFrom-prop};

use crate::leaf::{Leaf, made_by};
use crate::node::Node;
use crate::normal::is_normal;
use nk_values::Packet;
use std::alloc::{AllocError, Global};

/// A diagram whose tests are ordered by field and then by value, and that names at most 4,000 values.
pub struct Fdd {
    root: Node,
    pub ghost few: { IsFew (tree root) },
    pub ghost ordered: { IsOrdered (tree root) } by { IsOrderedFrom-prop (tree root) 0 },
}

impl Drop for Fdd {
    fn drop(self) {
        let Fdd { root: _root } = self;
    }
}

impl Fdd {
    ghost use Rattle.std.specs.Prelude.{◌≡◌, ◌↔◌, IsTrue, IfOk};
    ghost use Rattle.fdd_nodes.specs.Fdds.{tree_of};
    ghost use Rattle.fdd_nodes.specs.Normals.{IsNormal};
    ghost use Rattle.fdd_nodes.specs.Trees.{answers, leaf_at};

    /// The diagram with this root.
    pub fn new(root: Node) -> Fdd
        requires few { IsFew (tree root) }
        requires ordered { IsOrdered (tree root) }
        ensures { tree_of result ≡ tree root }
    {
        Fdd { root }
    }

    /// The root: a leaf, or the first test.
    pub fn root(&self) -> &Node
        ensures { tree result.now ≡ tree_of self.now }
    {
        &self.root
    }

    /// The root, without the diagram around it.
    pub fn into_root(self) -> Node
        ensures { tree result ≡ tree_of self }
    {
        let Fdd { root } = self;
        root
    }

    /// The same diagram again.
    pub fn copy(&self, alloc: Global) -> Result<Fdd, AllocError>
        ensures { IfOk result (λ r. tree_of r ≡ tree_of self.now) }
    {
        let root = self.root.copy(alloc)?;
        Ok(Fdd { root })
    }

    /// The packets that the leaf on a packet's path makes of it, one for each copy.
    pub fn answer(&self, alloc: Global, packet: &Packet) -> Result<Vec<Packet>, AllocError>
        ensures { IfOk result (λ r. r.items ≡ answers (tree_of self.now) packet.now) }
    {
        made_by(alloc, self.leaf_of(packet).copies(), packet)
    }

    /// The leaf on a packet's path.
    pub fn leaf_of(&self, packet: &Packet) -> &Leaf
        ensures { result.now ≡ leaf_at (tree_of self.now) packet.now }
    {
        self.root.leaf_of(packet)
    }

    /// Whether no leaf assigns what its path fixes, and no test is redundant: its branches answer some packet in range
    /// differently.
    pub fn normal(&self) -> bool
        ensures { IsTrue result ↔ IsNormal (tree_of self.now) }
    {
        is_normal(&self.root)
    }
}
