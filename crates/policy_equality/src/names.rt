//! The literals that two policies name.
//!
//! Layer: diagrams; private. Called by `comparison`.
ghost use Rattle.std.specs.Prelude.{IfOk};
ghost use Rattle.nk_syntax.specs.Views.{term_of};
ghost use Rattle.fdd_compile.specs.Named.{AreFewNamed, TermNames};
ghost use Rattle.policy_equality.specs.Asked.{AreNamesOfBoth};

use fdd_compile::add_names;
use indexmap::IndexSet;
use nk_syntax::Pol;
use nk_values::Lit;
use std::alloc::{AllocError, Global};

/// The literals that one of two policies names, each once.
pub fn names_of_both(alloc: Global, p: &Pol, q: &Pol) -> Result<IndexSet<Lit>, AllocError>
    requires few_p { AreFewNamed (TermNames (term_of p.now)) }
    requires few_q { AreFewNamed (TermNames (term_of q.now)) }
    ensures { IfOk result (λ names. AreNamesOfBoth (term_of p.now) (term_of q.now) names.keys) }
{
    let mut names = IndexSet::new(alloc);
    add_names(p, &mut names)?;
    add_names(q, &mut names)?;
    Ok(names)
}
