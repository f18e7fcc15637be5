//! Operands joined into one policy or predicate.
//!
//! Layer: texts that are read; private. Called by `chain`.
ghost use Rattle.std.specs.Prelude.{◌≡◌, ◌<◌, map};
ghost use Rattle.nk_syntax.specs.Terms.{Guard, Filter};
ghost use Rattle.nk_syntax.specs.Views.{term_of, guard_of};
ghost use Rattle.netkat_parser.specs.Grammar.{sum_of, seq_of};
ghost use Rattle.netkat_parser.specs.Showing.{or_of, and_of};

use nk_syntax::{Pol, Pols, Pred, Preds};

/// The predicate of a filter.
pub fn pred_of(pol: Pol) -> Pred
    ensures { (a : Guard) → term_of pol ≡ Filter a → guard_of result ≡ a }
{
    match pol {
        Pol::Filter(pred) => pred,
        _ => Pred::Zero,
    }
}

// One policy as it is, several as a sum.
#[tactic(auto, using(crate::proofs::Chains::sum_of_many))]
pub(super) fn sum(mut all: Vec<Pol>) -> Pol
    ensures { term_of result ≡ sum_of (map term_of all.items) }
{
    if all.len() != 1 {
        return Pol::Sum(Pols { items: all });
    }
    match all.pop() {
        Some(pol) => pol,
        None => unreachable!(),
    }
}

// One policy as it is, several as a sequence.
#[tactic(auto, using(crate::proofs::Chains::seq_of_many))]
pub(super) fn seq(mut all: Vec<Pol>) -> Pol
    ensures { term_of result ≡ seq_of (map term_of all.items) }
{
    if all.len() != 1 {
        return Pol::Seq(Pols { items: all });
    }
    match all.pop() {
        Some(pol) => pol,
        None => unreachable!(),
    }
}

// One predicate as it is, several as an `And`.
#[tactic(auto, using(crate::proofs::Chains::and_of_many))]
pub(super) fn and(mut all: Vec<Pred>) -> Pred
    ensures { guard_of result ≡ and_of (map guard_of all.items) }
{
    if all.len() != 1 {
        return Pred::And(Preds { items: all });
    }
    match all.pop() {
        Some(pred) => pred,
        None => unreachable!(),
    }
}

// One predicate as it is, several as an `Or`.
#[tactic(auto, using(crate::proofs::Chains::or_of_many))]
pub(super) fn or(mut all: Vec<Pred>) -> Pred
    ensures { guard_of result ≡ or_of (map guard_of all.items) }
{
    if all.len() != 1 {
        return Pred::Or(Preds { items: all });
    }
    match all.pop() {
        Some(pred) => pred,
        None => unreachable!(),
    }
}
