//! What is known of the diagrams of a store.
//!
//! Layer: diagrams; private. Adds calls to `Store`.
ghost use Rattle.std.specs.Prelude.{◌≡◌, ◌<◌, IfSome, IsTrue, ◌↔◌, length};
ghost use Rattle.nk_values.specs.Ranges.{place};
ghost use Rattle.fdd_nodes.specs.Roots.{IsLeaf};
ghost use Rattle.fdd_nodes.specs.Trees as trees;
ghost use Rattle.fdd_store.specs.Digests.{IsDigest, SetsField, behind};
ghost use Rattle.fdd_store.specs.Looks.{Looks};
ghost use Rattle.fdd_store.specs.Canonical.{IsCanonical};
ghost use Rattle.fdd_store.specs.Stores.{Has, IsBelow, IsRight, Gives, shape_tree, tree_at, trees as all_trees};

use super::{Look, Store};
use crate::call::Call;
use crate::digest::Digest;
use crate::id::Id;
use crate::shape::Shape;
use fdd_nodes::Leaf;
use nk_values::Field;

impl Store {
    /// Whether the store has a diagram.
    pub fn holds(&self, a: Id) -> bool
        ensures { IsTrue result ↔ Has self.now a }
    {
        a.place() < self.shapes.len()
    }

    /// The root of a diagram.
    pub fn look(&self, a: Id) -> Look
        requires { Has self.now a }
        ensures made { IsCanonical (tree_at self.now a) }
        ensures look { Looks self.now (tree_at self.now a) result }
    {
        match self.shapes.get_index(a.place()) {
            None => unreachable!(),
            Some(shape) => match shape {
                Shape::Copies(_) => Look::Leaf,
                Shape::Fork(l, t, e) => Look::Fork(*l, *t, *e),
            },
        }
    }

    /// The leaf that a diagram is.
    pub fn leaf(&self, a: Id) -> &Leaf
        requires has { Has self.now a }
        requires leaf { IsLeaf (tree_at self.now a) }
        ensures { tree_at self.now a ≡ trees.Leaf result.now }
    {
        match self.shapes.get_index(a.place()) {
            None => unreachable!(),
            Some(shape) => match shape {
                Shape::Copies(leaf) => leaf,
                Shape::Fork(_, _, _) => unreachable!(),
            },
        }
    }

    // What is told of a diagram.
    pub(super) fn digest(&self, a: Id) -> &Digest
        requires { Has self.now a }
        ensures digest { IsDigest self.now a (tree_at self.now a) result.now }
        ensures made { IsCanonical (tree_at self.now a) }
    {
        match self.digests.get(a.place()) {
            None => unreachable!(),
            Some(digest) => digest,
        }
    }

    /// Where the tests of a field at the front lead that do not hold.
    pub(crate) fn behind(&self, f: Field, a: Id) -> Id
        requires { Has self.now a }
        ensures has { Has self.now result }
        ensures leads { tree_at self.now result ≡ behind (place f) (tree_at self.now a) }
    {
        match self.look(a) {
            Look::Leaf => a,
            Look::Fork(m, _, _) => {
                if m.field().place() == f.place() {
                    self.digest(a).behind
                } else {
                    a
                }
            }
        }
    }

    /// Whether some leaf of a diagram assigns a field.
    pub fn sets(&self, a: Id, f: Field) -> bool
        requires { Has self.now a }
        ensures { IsTrue result ↔ SetsField (tree_at self.now a) f }
    {
        self.digest(a).sets.has(f)
    }

    /// Whether two diagrams are one.
    pub(crate) fn same(&self, a: Id, b: Id) -> bool
        requires has_a { Has self.now a }
        requires has_b { Has self.now b }
        ensures ids { IsTrue result ↔ (a ≡ b) }
        ensures same { IsTrue result ↔ (tree_at self.now a ≡ tree_at self.now b) }
        ensures made { IsCanonical (tree_at self.now a) }
        ensures made_too { IsCanonical (tree_at self.now b) }
    {
        let _shapes = &self.shapes;
        a.place() == b.place()
    }

    // Where a node or a leaf stands, if it was put.
    pub(super) fn found(&self, shape: &Shape) -> Option<Id>
        requires { IsBelow (length self.now.shapes) shape.now }
        ensures { IfSome result (λ i. Gives self.now i (λ t. t ≡ shape_tree (all_trees self.now.shapes) shape.now)) }
    {
        match self.shapes.get_index_of(shape) {
            None => None,
            Some(place) => Some(Id::at(place)),
        }
    }

    /// The result of an operation, if it was kept.
    pub(crate) fn known(&self, call: &Call) -> Option<Id>
        ensures { IfSome result (λ r. IsRight self.now call.now r) }
    {
        match self.known.get(call) {
            None => None,
            Some(place) => Some(*place),
        }
    }
}
