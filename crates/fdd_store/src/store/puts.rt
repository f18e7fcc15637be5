//! Nodes and leaves that are put into a store, each once.
//!
//! Layer: diagrams; private. Adds calls to `Store`.
ghost use Rattle.std.specs.Prelude.{◌≡◌, ◌<◌, IfOk, OnErr, length};
ghost use Rattle.nk_values.specs.declared.lit.Lit.{Lit};
ghost use Rattle.nk_values.specs.Ranges.{place};
ghost use Rattle.fdd_nodes.specs.Trees as trees;
ghost use Rattle.fdd_store.specs.Digests.{IsDigest, behind};
ghost use Rattle.fdd_store.specs.Canonical.{IsCanonical};
ghost use Rattle.fdd_store.specs.Stores.{Has, IsBelow, Grows, Gives, shape_tree, tree_at, trees as all_trees};

use super::Store;
use crate::digest::{Digest, fields_set};
use crate::id::Id;
use crate::shape::Shape;
use fdd_nodes::Leaf;
use nk_values::Lit;
use std::alloc::{AllocError, Global};

// A leaf of more copies is put without a look for it: it is seldom there, and the look hashes all its copies.
const FEW_COPIES: usize = 8;

impl Store {
    // Puts a node or a leaf, with what is told of it.
    fn put(&mut self, shape: Shape, digest: Digest) -> Result<Id, AllocError>
        requires below { IsBelow (length self.old.shapes) shape }
        requires made { IsCanonical (shape_tree (all_trees self.old.shapes) shape) }
        requires right { IsDigest self.old (length self.old.shapes) (shape_tree (all_trees self.old.shapes) shape)
            digest }
        ensures grows { Grows self.old self.new }
        ensures place { IfOk result (λ i. Gives self.new i (λ t. t ≡ shape_tree (all_trees self.old.shapes) shape)) }
        ensures err { OnErr result (self.new ≡ self.old) }
    {
        self.digests.truncate(self.shapes.len());
        self.digests.push(digest)?;
        let (place, _) = self.shapes.insert_full(shape)?;
        Ok(Id::at(place))
    }

    /// The diagram that is a leaf.
    pub fn put_leaf(&mut self, alloc: Global, leaf: Leaf) -> Result<Id, AllocError>
        ensures grows { Grows self.old self.new }
        ensures place { IfOk result (λ i. Gives self.new i (λ t. t ≡ trees.Leaf leaf)) }
        ensures err { OnErr result (self.new ≡ self.old) }
    {
        if leaf.copies().len() > FEW_COPIES {
            return self.put_copies(alloc, &leaf);
        }
        let shape = Shape::Copies(leaf);
        if let Some(place) = self.found(&shape) {
            return Ok(place);
        }
        match shape {
            Shape::Copies(leaf) => self.put_copies(alloc, &leaf),
            Shape::Fork(_, _, _) => unreachable!(),
        }
    }

    // Puts a leaf, of copies that are kept.
    #[tactic(auto, using(crate::proofs::DigestLaws::sets_leaf))]
    fn put_copies(&mut self, alloc: Global, leaf: &Leaf) -> Result<Id, AllocError>
        ensures grows { Grows self.old self.new }
        ensures place { IfOk result (λ i. Gives self.new i (λ t. t ≡ trees.Leaf leaf.now)) }
        ensures err { OnErr result (self.new ≡ self.old) }
    {
        let shared = self.copies.leaf(alloc, leaf)?;
        let digest = Digest {
            behind: Id::at(0),
            sets: fields_set(shared.copies()),
        };
        self.put(Shape::Copies(shared), digest)
    }

    /// The diagram of a test that is not idle.
    pub(crate) fn put_fork(&mut self, l: Lit, t: Id, e: Id) -> Result<Id, AllocError>
        requires has_then { Has self.old t }
        requires has_else { Has self.old e }
        requires made { IsCanonical (trees.Node l (tree_at self.old t) (tree_at self.old e)) }
        ensures grows { Grows self.old self.new }
        ensures place { IfOk result
            (λ i. Gives self.new i (λ x. x ≡ trees.Node l (tree_at self.old t) (tree_at self.old e))) }
        ensures err { OnErr result (self.new ≡ self.old) }
    {
        let digest = self.digest_of(l, t, e);
        self.put(Shape::Fork(l, t, e), digest)
    }

    // What is told of a test with its branches.
    #[tactic(auto, using(crate::proofs::DigestLaws::sets_test))]
    fn digest_of(&self, l: Lit, t: Id, e: Id) -> Digest
        requires has_then { Has self.now t }
        requires has_else { Has self.now e }
        ensures { IsDigest self.now (length self.now.shapes) (trees.Node l (tree_at self.now t) (tree_at self.now e))
            result }
    {
        let (yes, no) = (self.digest(t), self.digest(e));
        Digest {
            behind: self.behind(l.field(), e),
            sets: yes.sets.with(&no.sets),
        }
    }
}
