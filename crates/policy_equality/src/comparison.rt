//! Two policies compared.
//!
//! Layer: diagrams; public. Called by equal_command.
ghost use Rattle.std.specs.Prelude.{◌≡◌, ◌↔◌, None, IfOk, IfErr, IfSome, OnOk, MatchResult};
ghost use Rattle.nk_syntax.specs.Views.{term_of};
ghost use Rattle.history_meaning.specs.Plain.{IsPlain};
ghost use Rattle.equal_laws.specs.Equals.{HaveSameResults};
ghost use Rattle.fdd_compile.specs.Meanings.{HasMeaning, MeaningOf};
ghost use Rattle.fdd_compile.specs.Named.{AreFewNamed, TermNames};
ghost use Rattle.fdd_store.specs.Stores.{Grows, Gives};
ghost use Rattle.policy_equality.specs.Asked.{Blames};
ghost use Rattle.policy_equality.specs.Comparisons.{AreApartBy, HaveMeaning, HaveSameHistories, IsNotCompared};

use crate::fault::CompareError;
use crate::names::names_of_both;
use fdd_apart::{Difference, Side, apart_in};
use fdd_compile::{CompileError, meaning};
use fdd_store::{Id, Store};
use nk_syntax::Pol;
use std::alloc::Global;

/// A well-shaped packet and a result of it that just one of two policies gives, or none if each well-shaped packet has
/// the same results under both. Then plain policies also give it the same histories in each topology
/// (POPL 2014, section 3).
///
/// Whether a switch can follow the policies is not asked. A policy is refused for a `dup`, or else for its first star
/// that is deep, the first policy before the second.
pub fn compare(alloc: Global, p: &Pol, q: &Pol) -> Result<Option<Difference>, CompareError>
    requires few_p { AreFewNamed (TermNames (term_of p.now)) }
    requires few_q { AreFewNamed (TermNames (term_of q.now)) }
    ensures equal { IfOk result (λ o. (o ≡ None) ↔ HaveSameResults (term_of p.now) (term_of q.now)) }
    ensures apart { IfOk result (λ o. IfSome o (AreApartBy (term_of p.now) (term_of q.now))) }
    ensures histories { IfOk result
        (λ o. o ≡ None → IsPlain (term_of p.now) → IsPlain (term_of q.now) →
        HaveSameHistories (term_of p.now) (term_of q.now)) }
    ensures meant { OnOk result (HaveMeaning (term_of p.now) (term_of q.now)) }
    ensures refused { IfErr result (IsNotCompared (term_of p.now) (term_of q.now)) }
{
    let mut store = Store::new(alloc);
    let a = meaning_of(alloc, &mut store, p, Side::First)?;
    let b = meaning_of(alloc, &mut store, q, Side::Second)?;
    let names = names_of_both(alloc, p, q)?;
    let found = apart_in(alloc, &mut store, a, b, names.as_slice())?;
    Ok(found)
}

// The diagram of one of the policies.
fn meaning_of(alloc: Global, store: &mut Store, pol: &Pol, side: Side) -> Result<Id, CompareError>
    requires { AreFewNamed (TermNames (term_of pol.now)) }
    ensures grows { Grows store.old store.new }
    ensures told { MatchResult result (λ r. Gives store.new r (MeaningOf (term_of pol.now)))
        (Blames side (term_of pol.now)) }
{
    match meaning(alloc, store, pol) {
        Ok(root) => Ok(root),
        Err(CompileError::Fault(fault)) => Err(CompareError::Fault { side, fault }),
        Err(CompileError::Memory) => Err(CompareError::Memory),
    }
}
