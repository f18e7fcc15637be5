//! Sums of the diagrams of summands.
//!
//! Layer: diagrams; private. Called by `sums`.
ghost use Rattle.std.specs.Prelude.{◌≡◌, ◌⊎◌, [], ◌∷◌, ◌++◌, IfOk, OnOk, map};
ghost use Rattle.nk_values.specs.Members.{IsIn};
ghost use Rattle.fdd_store.specs.Stores.{Grows, Gives};
ghost use Rattle.fdd_compile.specs.Folds.{AreSmall, UnionOfAll};
ghost use Rattle.fdd_compile.specs.Sums.{AreThere, below_of};

use crate::plain::plain_sum;
use crate::summand::Summand;
use fdd_store::{Id, Store, each_is_made};
use std::alloc::{AllocError, Global};

/// The sum of the diagrams of summands, without their tests.
pub(crate) fn bare(alloc: Global, store: &mut Store, summands: &[Summand]) -> Result<Id, AllocError>
    requires there { AreThere store.old summands.now }
    requires small { AreSmall (map (below_of store.old) summands.now) }
    ensures grows { Grows store.old store.new }
    ensures place { IfOk result (λ r. Gives store.new r (UnionOfAll (map (below_of store.old) summands.now))) }
{
    if let [one] = summands {
        each_is_made(store, one.below);
        return Ok(one.below);
    }
    let mut parts = Vec::new(alloc);
    for summand in summands {
        put_part(&mut parts, summand.below)?;
    }
    plain_sum(alloc, store, &parts)
}

// Puts a diagram after others, if it is not the last of them again.
fn put_part(parts: &mut Vec<Id>, part: Id) -> Result<(), AllocError>
    ensures { OnOk result ((parts.new.items ≡ parts.old.items ++ part ∷ []) ⊎
        ((parts.new.items ≡ parts.old.items) × IsIn parts.old.items part)) }
{
    if let Some(last) = parts.last() {
        if last.place() == part.place() {
            return Ok(());
        }
    }
    parts.push(part)?;
    Ok(())
}
