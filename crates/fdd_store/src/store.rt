//! The diagrams of a store.
//!
//! Layer: diagrams; public. Called by many modules here, and by many crates.
ghost use Rattle.std.specs.Prelude.{◌≡◌, ◌<◌, [], take, length};
ghost use Rattle.nk_values.specs.declared.lit.Lit.{Lit};
ghost use Rattle.nk_values.specs.Ranges.{place};
ghost use Rattle.fdd_store.specs.Stores.{IsRight, IsStore, Grows};

use crate::call::Call;
use crate::copies::SharedCopies;
use crate::digest::Digest;
use crate::id::Id;
use crate::shape::Shape;
use fdd_nodes::Leaf;
use indexmap::{IndexMap, IndexSet};
use nk_values::Lit;
use std::alloc::{AllocError, Global};
use std::marker::Model;

mod looks;
mod puts;

/// Diagrams that share their parts: each node and each leaf is kept once, and so is each result of an operation.
///
/// All of them are ordered and reduced, so each of them is the only one that answers as it does.
pub struct Store {
    shapes: IndexSet<Shape>,
    known: IndexMap<Call, Id>,
    digests: Vec<Digest>,
    copies: SharedCopies,
    ends: Ends,
    assigned: IndexMap<Lit, Id>,
}

impl Drop for Store {
    fn drop(self) {
        let Store {
            shapes: _shapes,
            known: _known,
            digests: _digests,
            copies: _copies,
            ends: _ends,
            assigned: _assigned,
        } = self;
    }
}

impl Model for Store {
    ghost use Rattle.fdd_store.specs.Digests.{AreDigests};
    ghost use Rattle.fdd_store.specs.Stores.{Kept, IsStore, kept_of};

    ghost Value = { Kept };

    ghost view = { λ s. kept_of s.shapes.keys s.known.entries };

    ghost invariant = { λ s. IsStore (kept_of s.shapes.keys s.known.entries) ×
        AreDigests (kept_of s.shapes.keys s.known.entries) s.digests.items };
}

/// How many nodes and leaves there are, and how many results.
#[derive(Clone, Copy)]
pub(crate) struct Size {
    pub(crate) shapes: usize,
    pub(crate) known: usize,
}

/// Which diagrams last kept every packet, and no packet. They are looked at before they are used again.
#[derive(Clone, Copy)]
pub(crate) struct Ends {
    pub(crate) all: Id,
    pub(crate) none: Id,
}

/// The root of a diagram: a leaf, or a test with its branches.
#[derive(Clone, Copy)]
pub enum Look {
    Leaf,
    Fork(Lit, Id, Id),
}

impl Store {
    /// No diagram.
    pub fn new(alloc: Global) -> Store
        ensures shapes { result.shapes ≡ [] }
        ensures known { result.known ≡ [] }
    {
        Store {
            shapes: IndexSet::new(alloc),
            known: IndexMap::new(alloc),
            digests: Vec::new(alloc),
            copies: SharedCopies::new(alloc),
            ends: Ends {
                all: Id::at(0),
                none: Id::at(0),
            },
            assigned: IndexMap::new(alloc),
        }
    }

    /// How much is kept.
    pub(crate) fn size(&self) -> Size
        ensures shapes { result.shapes ≡ length self.now.shapes }
        ensures known { result.known ≡ length self.now.known }
        ensures right { IsStore self.now }
    {
        Size {
            shapes: self.shapes.len(),
            known: self.known.len(),
        }
    }

    /// Which diagrams last kept every packet, and no packet.
    pub(crate) fn ends(&self) -> Ends {
        self.ends
    }

    /// Notes which diagrams keep every packet, and no packet.
    pub(crate) fn note_ends(&mut self, ends: Ends)
        ensures { self.new ≡ self.old }
    {
        self.ends = ends;
    }

    /// Which diagram last gave packets a literal, if this was noted.
    pub(crate) fn noted(&self, l: &Lit) -> Option<Id> {
        match self.assigned.get(l) {
            None => None,
            Some(place) => Some(*place),
        }
    }

    /// Notes which diagram gives packets a literal, if there is memory to do so.
    pub(crate) fn note(&mut self, l: Lit, a: Id)
        ensures { self.new ≡ self.old }
    {
        let _noted = self.assigned.insert(l, a);
    }

    /// Keeps the result of an operation.
    pub(crate) fn keep(&mut self, call: Call, place: Id) -> Result<(), AllocError>
        requires { IsRight self.old call place }
        ensures grows { Grows self.old self.new }
        ensures shapes { self.new.shapes ≡ self.old.shapes }
    {
        let (at, before) = self.known.insert_full(call, place)?;
        if let Some(same) = before {
            self.known[at] = same;
        }
        Ok(())
    }

    /// Goes back to what was kept before.
    pub(crate) fn cut(&mut self, size: Size)
        requires { IsStore (record
            { shapes = take size.shapes self.old.shapes; known = take size.known self.old.known }) }
        ensures shapes { self.new.shapes ≡ take size.shapes self.old.shapes }
        ensures known { self.new.known ≡ take size.known self.old.known }
    {
        self.shapes.truncate(size.shapes);
        self.known.truncate(size.known);
        self.digests.truncate(size.shapes);
    }
}
