//! Diagrams after tests.
//!
//! Layer: diagrams; private. Called by many modules.
ghost use Rattle.std.specs.Prelude.{◌≡◌, ◌+◌, [], ◌∷◌, IfSome, IsSome, IfOk, OnOk, IsTrue, slice_get};
ghost use Rattle.fdd_store.specs.Operations.{ZeroOf};
ghost use Rattle.fdd_store.specs.Stores.{Has, Gives, tree_at};
ghost use Rattle.fdd_compile.specs.Sums.{AreAlike, HasPut, IsLower, if_all, left_of};
ghost use Rattle.fdd_nodes.specs.Trees.{Leaf as Ends, Node};

use fdd_store::{Id, Look, Store};
use nk_values::Lit;
use smallvec::SmallVec;
use std::alloc::{AllocError, Global};

/// A diagram after tests. It stands for the diagram where all of the tests hold, and else for nothing.
#[derive(Drop)]
pub(crate) struct Summand {
    pub(crate) tests: SmallVec<Lit, 4>,
    pub(crate) below: Id,
}

impl Summand {
    /// A diagram after tests. Tests at the front of the diagram that keep nothing else are taken out of it, and all
    /// tests stand in their order.
    pub(crate) fn new(
        store: &Store,
        zero: Id,
        tests: SmallVec<Lit, 4>,
        below: Id,
    ) -> Result<Summand, AllocError>
        requires has { Has store.now below }
        requires zero { Gives store.now zero ZeroOf }
        ensures has { IfOk result (λ s. Has store.now s.below) }
        ensures alike { IfOk result
            (λ s. AreAlike (left_of 0 store.now s ∷ []) (if_all tests.items (tree_at store.now below) ∷ [])) }
    {
        let mut all = Summand { tests, below };
        while let Some(front) = front_of(store, zero, all.below) {
            all.tests.push(front.test)?;
            all.below = front.below;
        }
        all.tests
            .as_mut_slice()
            .sort_unstable_by_key(|test| test.rank());
        Ok(all)
    }

    /// The place after that of a test.
    pub(crate) fn next(&self, place: usize) -> usize
        requires { IsSome (slice_get self.now.tests.items place) }
        ensures { result ≡ place + 1 }
    {
        let _count = self.tests.len();
        place + 1
    }

    // Whether two are one.
    fn is(&self, other: &Summand) -> bool
        ensures tests { IsTrue result → self.now.tests.items ≡ other.now.tests.items }
        ensures below { IsTrue result → self.now.below ≡ other.now.below }
    {
        self.below.place() == other.below.place()
            && are_same(self.tests.as_slice(), other.tests.as_slice())
    }

    /// The test at a place, if there is one.
    pub(crate) fn test(&self, place: usize) -> Option<Lit>
        ensures { result ≡ slice_get self.now.tests.items place }
    {
        match self.tests.as_slice().get(place) {
            None => None,
            Some(test) => Some(*test),
        }
    }
}

/// Puts a summand after others, if it is not the last of them again.
pub(crate) fn put(all: &mut Vec<Summand>, part: Summand) -> Result<(), AllocError>
    ensures { OnOk result (HasPut all.old.items part all.new.items) }
{
    if let Some(last) = all.last() {
        if last.is(&part) {
            return Ok(());
        }
    }
    all.push(part)?;
    Ok(())
}

fn are_same(a: &[Lit], b: &[Lit]) -> bool
    ensures { IsTrue result → a.now ≡ b.now }
{
    if a.len() != b.len() {
        return false;
    }
    for i in 0..a.len() {
        if !a[i].is(&b[i]) {
            return false;
        }
    }
    true
}

// The first test of a diagram that keeps nothing else, and the diagram where it holds.
#[derive(Clone, Copy)]
struct Front {
    test: Lit,
    below: Id,
}

fn front_of(store: &Store, zero: Id, a: Id) -> Option<Front>
    requires has { Has store.now a }
    requires zero { Gives store.now zero ZeroOf }
    ensures has { IfSome result (λ r. Has store.now r.below) }
    ensures alike { IfSome result
        (λ r. AreAlike (Node r.test (tree_at store.now r.below) (Ends []) ∷ []) (tree_at store.now a ∷ [])) }
    ensures lower { IfSome result (λ r. IsLower (tree_at store.now r.below) (tree_at store.now a)) }
{
    match store.look(a) {
        Look::Leaf => None,
        Look::Fork(test, below, rest) => {
            if rest.place() == zero.place() {
                Some(Front { test, below })
            } else {
                None
            }
        }
    }
}
