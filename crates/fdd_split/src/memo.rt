//! What is found of a store's diagrams is kept, so shared parts are walked once.
//!
//! Layer: diagrams; private. Called by `plain`, `splits` and `threats`.
ghost use Rattle.std.specs.Prelude.{◌≡◌, IfOk};

use crate::bars::{Bar, same_bars};
use fdd_nodes::Node;
use fdd_store::{Id, Nodes};
use indexmap::IndexMap;
use nk_values::Lit;
use std::alloc::{AllocError, Global};
use std::rc::Rc;

/// A diagram of a store, and what is barred on the packets that come to it.
#[derive(PartialEq, Eq, Hash, Drop)]
pub(crate) struct Key {
    pub(crate) bars: Vec<Bar>,
    pub(crate) diagram: Id,
}

/// A diagram that was divided.
#[derive(Drop)]
pub(crate) struct Part {
    pub(crate) root: Rc<Node>,
}

/// Of each place of the store whether its diagram is plain, if that is known; the first threats that were found; what
/// was divided; and the nodes of what was not.
#[derive(Drop)]
pub(crate) struct Memo {
    pub(crate) plain: Vec<Option<bool>>,
    pub(crate) threats: IndexMap<Key, Option<Lit>>,
    pub(crate) parts: IndexMap<Key, Part>,
    pub(crate) nodes: Nodes,
}

/// The key of a diagram.
pub(crate) fn key_of(alloc: Global, bars: &[Bar], diagram: Id) -> Result<Key, AllocError>
    ensures bars { IfOk result (λ r. r.bars.items ≡ bars.now) }
    ensures diagram { IfOk result (λ r. r.diagram ≡ diagram) }
{
    let same = same_bars(alloc, bars)?;
    Ok(Key {
        bars: same,
        diagram,
    })
}

impl Memo {
    ghost use Rattle.std.specs.Prelude.{◌≤◌, length, IfSome, OnOk};
    ghost use Rattle.fdd_store.specs.Stores.{Kept};
    ghost use Rattle.fdd_split.specs.Memos.{AreKept, IsPlainEntry, IsThreatEntry, IsPartEntry};
    ghost use Rattle.fdd_nodes.specs.Trees.{tree};

    /// Nothing is known yet.
    pub(crate) fn new(alloc: Global) -> Memo
        ensures { (k : Kept) → AreKept k result }
    {
        Memo {
            plain: Vec::new(alloc),
            threats: IndexMap::new(alloc),
            parts: IndexMap::new(alloc),
            nodes: Nodes::new(alloc),
        }
    }

    /// Whether a diagram is plain, if that is known.
    pub(crate) fn plain_of(&self, a: Id) -> Option<bool>
        ensures { (k : Kept) → AreKept k self.now → IfSome result (λ b. IsPlainEntry k a b) }
    {
        *self.plain.get(a.place())?
    }

    /// Keeps whether a diagram is plain.
    pub(crate) fn keep_plain(&mut self, a: Id, plain: bool) -> Result<(), AllocError>
        ensures { (k : Kept) → AreKept k self.old → IsPlainEntry k a plain → OnOk result (AreKept k self.new) }
    {
        let place = a.place();
        self.reach(place)?;
        match self.plain.get_mut(place) {
            Some(known) => *known = Some(plain),
            None => self.plain.push(Some(plain))?,
        }
        Ok(())
    }

    // Of each place before this one there is a word, also if nothing is known of it yet.
    fn reach(&mut self, place: usize) -> Result<(), AllocError>
        ensures kept { (k : Kept) → AreKept k self.old → OnOk result (AreKept k self.new) }
        ensures reached { OnOk result (place ≤ length self.new.plain.items) }
    {
        for _ in self.plain.len()..place {
            self.plain.push(None)?;
        }
        Ok(())
    }

    /// The first threat of a diagram, if that is known.
    pub(crate) fn threat_of(&self, key: &Key) -> Option<Option<Lit>>
        ensures { (k : Kept) → AreKept k self.now → IfSome result (λ o. IsThreatEntry k key.now o) }
    {
        match self.threats.get(key) {
            None => None,
            Some(known) => Some(*known),
        }
    }

    /// Keeps the first threat of a diagram.
    pub(crate) fn keep_threat(&mut self, key: Key, first: Option<Lit>) -> Result<(), AllocError>
        ensures { (k : Kept) → AreKept k self.old → IsThreatEntry k key first → OnOk result (AreKept k self.new) }
    {
        self.threats.insert(key, first)?;
        Ok(())
    }

    /// What a diagram was divided into, if it was.
    pub(crate) fn part_of(&self, key: &Key) -> Option<&Part>
        ensures { (k : Kept) → AreKept k self.now → IfSome result (λ r. IsPartEntry k key.now r.now) }
    {
        self.parts.get(key)
    }

    /// Keeps what a diagram was divided into.
    pub(crate) fn keep_part(&mut self, key: Key, part: Part) -> Result<(), AllocError>
        ensures { (k : Kept) → AreKept k self.old → IsPartEntry k key part → OnOk result (AreKept k self.new) }
    {
        self.parts.insert(key, part)?;
        Ok(())
    }
}
