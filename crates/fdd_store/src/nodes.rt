//! Diagrams of a store as nodes.
//!
//! Layer: diagrams; public. Called by fdd_split.
ghost use Rattle.std.specs.Prelude.{◌≡◌, IfOk, IfSome, OnOk};
ghost use Rattle.fdd_nodes.specs.Fdds.{tree_of};
ghost use Rattle.fdd_nodes.specs.Names.{IsFew};
ghost use Rattle.fdd_nodes.specs.Trees.{tree};
ghost use Rattle.fdd_store.specs.NodeLists.{AreNodes, IsNodeOf};
ghost use Rattle.fdd_store.specs.Stores.{Has, Kept, tree_at};

use crate::id::Id;
use crate::store::{Look, Store};
use fdd_nodes::{Fdd, Node};
use std::alloc::{AllocError, Global};
use std::rc::Rc;

/// The nodes that were made of diagrams of one store, each once: what diagrams share, their nodes share.
///
/// They stay right if the store grows. Clauses say by `AreNodes` that they are those of a store.
#[derive(Drop)]
pub struct Nodes {
    made: Vec<Option<Rc<Node>>>,
}

impl Nodes {
    ghost use Rattle.std.specs.Prelude.{◌≤◌, length};

    /// No node.
    pub fn new(alloc: Global) -> Nodes
        ensures { (k : Kept) → AreNodes k result }
    {
        Nodes {
            made: Vec::new(alloc),
        }
    }

    /// A diagram as nodes. Only those are made that were not made before.
    #[cycle(node)]
    pub fn node(&mut self, alloc: Global, store: &Store, a: Id) -> Result<Rc<Node>, AllocError>
        requires has { Has store.now a }
        requires nodes { AreNodes store.now self.old }
        ensures node { IfOk result (λ r. tree r.value ≡ tree_at store.now a) }
        ensures nodes { OnOk result (AreNodes store.now self.new) }
    {
        if let Some(known) = self.known(a) {
            return known.clone();
        }
        let made = self.make(alloc, store, a)?;
        let again = made.clone()?;
        self.keep(a, again)?;
        Ok(made)
    }

    // A diagram as nodes, of which the root was not made before.
    #[cycle(node)]
    fn make(&mut self, alloc: Global, store: &Store, a: Id) -> Result<Rc<Node>, AllocError>
        requires has { Has store.now a }
        requires nodes { AreNodes store.now self.old }
        ensures node { IfOk result (λ r. tree r.value ≡ tree_at store.now a) }
        ensures nodes { OnOk result (AreNodes store.now self.new) }
    {
        match store.look(a) {
            Look::Leaf => {
                let leaf = store.leaf(a).copy(alloc)?;
                let made = Rc::new(alloc, Node::Leaf(leaf))?;
                Ok(made)
            }
            Look::Fork(l, t, e) => {
                let yes = self.node(alloc, store, t)?;
                let no = self.node(alloc, store, e)?;
                let made = Rc::new(alloc, Node::Test(l, yes, no))?;
                Ok(made)
            }
        }
    }

    // The node of a diagram, if it was made.
    fn known(&self, a: Id) -> Option<&Rc<Node>>
        ensures { (k : Kept) → AreNodes k self.now → IfSome result (λ r. IsNodeOf k a r.now) }
    {
        self.made.get(a.place())?.as_ref()
    }

    // Keeps the node of a diagram.
    fn keep(&mut self, a: Id, node: Rc<Node>) -> Result<(), AllocError>
        ensures { (k : Kept) → AreNodes k self.old → IsNodeOf k a node → OnOk result (AreNodes k self.new) }
    {
        let place = a.place();
        self.reach(place)?;
        match self.made.get_mut(place) {
            Some(made) => *made = Some(node),
            None => self.made.push(Some(node))?,
        }
        Ok(())
    }

    // Of each place before this one there is a word, also if no node was made of it.
    fn reach(&mut self, place: usize) -> Result<(), AllocError>
        ensures nodes { (k : Kept) → AreNodes k self.old → OnOk result (AreNodes k self.new) }
        ensures reached { OnOk result (place ≤ length self.new.made.items) }
    {
        for _ in self.made.len()..place {
            self.made.push(None)?;
        }
        Ok(())
    }
}

impl Store {
    /// A diagram as nodes, which share what diagrams of the store share.
    pub fn tree(&self, alloc: Global, a: Id) -> Result<Fdd, AllocError>
        requires has { Has self.now a }
        requires few { IsFew (tree_at self.now a) }
        ensures { IfOk result (λ r. tree_of r ≡ tree_at self.now a) }
    {
        let _look = self.look(a);
        let mut nodes = Nodes::new(alloc);
        let node = nodes.node(alloc, self, a)?;
        let root = node.copy(alloc)?;
        Ok(Fdd::new(root))
    }
}
