//! Policies as diagrams, whatever switches can do.
//!
//! Layer: diagrams; public. Called by policy_equality.
ghost use Rattle.std.specs.Prelude.{MatchResult};
ghost use Rattle.nk_syntax.specs.Views.{term_of};
ghost use Rattle.fdd_compile.specs.Meanings.{MeaningOf, RefusesMeaning};
ghost use Rattle.fdd_compile.specs.Named.{AreFewNamed, TermNames};
ghost use Rattle.fdd_store.specs.Stores.{Grows, Gives};

use crate::build::build;
use crate::fault::CompileError;
use crate::flat::is_flat;
use fdd_store::{Id, Store};
use nk_syntax::Pol;
use nk_values::CompileFault;
use std::alloc::Global;

/// The normal diagram of a policy in a store, or the first of two reasons why it has none: a `dup`, or else the first
/// star that is deep.
///
/// Two policies in one store answer all packets alike exactly if their diagrams have one name.
pub fn meaning(alloc: Global, store: &mut Store, pol: &Pol) -> Result<Id, CompileError>
    requires { AreFewNamed (TermNames (term_of pol.now)) }
    ensures grows { Grows store.old store.new }
    ensures told { MatchResult result (λ r. Gives store.new r (MeaningOf (term_of pol.now)))
        (λ e. RefusesMeaning (term_of pol.now) e) }
{
    if !is_flat(pol) {
        return Err(CompileError::Fault(CompileFault::Dup));
    }
    Ok(build(alloc, store, pol)?)
}
