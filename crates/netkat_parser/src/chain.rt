//! Operands in a row, as far as they were read.
//!
//! Layer: texts that are read; private. Called by `operands`, `operators` and `reading`.
ghost use Rattle.std.specs.Prelude.{◌≡◌, ◌<◌, ◌++◌, Bool, List, [], ◌∷◌, IsTrue, OnOk, vec_len, vec_capacity};
ghost use Rattle.nk_syntax.specs.Terms.{Term, Filter};
ghost use Rattle.netkat_parser.specs.Grammar.{sum_of, seq_of};
ghost use Rattle.netkat_parser.specs.Showing.{AreOperands, IsOperand, HasOperandRoom, AreChain, HaveRoom};

use nk_syntax::{Pol, Pred};
use std::alloc::{AllocError, Global};
use std::mem;

mod joins;

pub use joins::pred_of;
use joins::{and, or, seq, sum};

/// Operands of a sum or a sequence: policies, or predicates inside a `not`.
#[derive(Drop)]
pub enum Operands {
    Policies(Vec<Pol>),
    Predicates(Vec<Pred>),
}

impl Operands {
    /// None, inside a `not` or outside.
    pub fn new(alloc: Global, inside: bool) -> Operands
        ensures { AreOperands inside result [] }
    {
        if inside {
            Operands::Predicates(Vec::new(alloc))
        } else {
            Operands::Policies(Vec::new(alloc))
        }
    }

    // None, of the same kind.
    fn none(&self, alloc: Global) -> Operands
        ensures { (i : Bool) (ps : List Term) → AreOperands i self.now ps → AreOperands i result [] }
    {
        match self {
            Operands::Policies(_) => Operands::Policies(Vec::new(alloc)),
            Operands::Predicates(_) => Operands::Predicates(Vec::new(alloc)),
        }
    }

    // Whether there are none.
    fn is_empty(&self) -> bool
        ensures { IsTrue result → (i : Bool) (ps : List Term) → AreOperands i self.now ps → ps ≡ [] }
    {
        match self {
            Operands::Policies(pols) => pols.is_empty(),
            Operands::Predicates(preds) => preds.is_empty(),
        }
    }

    // Makes room for one more.
    fn reserve(&mut self) -> Result<(), AllocError>
        ensures room { OnOk result (HasOperandRoom self.new) }
        ensures same { (i : Bool) (ps : List Term) → AreOperands i self.old ps → AreOperands i self.new ps }
    {
        match self {
            Operands::Policies(pols) => pols.reserve(1),
            Operands::Predicates(preds) => preds.reserve(1),
        }
    }

    // One more, for which there is room.
    #[inline(always)]
    fn push(&mut self, pol: Pol)
        requires { HasOperandRoom self.old }
        ensures { (i : Bool) (ps : List Term) (p : Term) → AreOperands i self.old ps → IsOperand i pol p →
            AreOperands i self.new (ps ++ p ∷ []) }
    {
        match self {
            Operands::Policies(pols) => put(pols, pol),
            Operands::Predicates(preds) => put(preds, pred_of(pol)),
        }
    }

    // One as it is, several as a sequence.
    fn seq(self) -> Pol
        ensures { (i : Bool) (ps : List Term) → AreOperands i self ps → IsOperand i result (seq_of ps) }
    {
        match self {
            Operands::Policies(pols) => seq(pols),
            Operands::Predicates(preds) => Pol::Filter(and(preds)),
        }
    }

    // One as it is, several as a sum.
    fn sum(self) -> Pol
        ensures { (i : Bool) (ps : List Term) → AreOperands i self ps → IsOperand i result (sum_of ps) }
    {
        match self {
            Operands::Policies(pols) => sum(pols),
            Operands::Predicates(preds) => Pol::Filter(or(preds)),
        }
    }
}

/// Puts an item into room that is there.
pub fn put<T: Drop>(out: &mut Vec<T>, item: T)
    requires { vec_len out.old < vec_capacity out.old }
    ensures { out.new.items ≡ out.old.items ++ item ∷ [] }
{
    match out.push(item) {
        Ok(()) => {}
        Err(_) => prove!(false),
    }
}

/// The summands of a policy, and the factors of the one after them.
#[derive(Drop)]
pub struct Chain {
    pub summands: Operands,
    pub factors: Operands,
}

impl Chain {
    /// None, inside a `not` or outside.
    pub fn new(alloc: Global, inside: bool) -> Chain
        ensures { AreChain inside result [] [] }
    {
        Chain {
            summands: Operands::new(alloc, inside),
            factors: Operands::new(alloc, inside),
        }
    }

    /// Makes room for one more of each.
    pub fn reserve(&mut self) -> Result<(), AllocError>
        ensures room { OnOk result (HaveRoom self.new) }
        ensures same { (i : Bool) (ss qs : List Term) → AreChain i self.old ss qs → AreChain i self.new ss qs }
    {
        self.summands.reserve()?;
        self.factors.reserve()
    }

    /// One more factor.
    #[inline(always)]
    pub fn factor(&mut self, pol: Pol)
        requires { HaveRoom self.old }
        ensures { (i : Bool) (ss qs : List Term) (p : Term) → AreChain i self.old ss qs → IsOperand i pol p →
            AreChain i self.new ss (qs ++ p ∷ []) }
    {
        self.factors.push(pol);
    }

    /// One more summand, of which this is the last factor.
    pub fn summand(&mut self, alloc: Global, pol: Pol)
        requires { HaveRoom self.old }
        ensures { (i : Bool) (ss qs : List Term) (p : Term) → AreChain i self.old ss qs → IsOperand i pol p
            → AreChain i self.new (ss ++ seq_of (qs ++ p ∷ []) ∷ []) [] }
    {
        if self.factors.is_empty() {
            self.summands.push(pol);
            return;
        }
        self.factors.push(pol);
        let none = self.factors.none(alloc);
        let factors = mem::replace(&mut self.factors, none);
        self.summands.push(factors.seq());
    }

    /// The policy of which this is the last factor.
    pub fn policy(self, pol: Pol) -> Pol
        requires { HaveRoom self }
        ensures { (i : Bool) (ss qs : List Term) (p : Term) → AreChain i self ss qs → IsOperand i pol p
            → IsOperand i result (sum_of (ss ++ seq_of (qs ++ p ∷ []) ∷ [])) }
    {
        let Chain {
            mut summands,
            mut factors,
        } = self;
        factors.push(pol);
        summands.push(factors.seq());
        summands.sum()
    }
}
