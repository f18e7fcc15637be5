//! The star of a diagram, and an assignment after it.
//!
//! Layer: diagrams; public. Called by fdd_compile.
ghost use Rattle.std.specs.Prelude.{◌≡◌, ◌⊎◌, [], ◌∷◌, true, false, IfOk, IfSome, IfNone};
ghost use Rattle.nk_values.specs.declared.lit.Lit.{Lit};
ghost use Rattle.nk_values.specs.Lits.{lit_field};
ghost use Rattle.nk_values.specs.Members.{IsIn};
ghost use Rattle.fdd_nodes.specs.Names.{AreFew};
ghost use Rattle.fdd_nodes.specs.Trees.{Leaf};
ghost use Rattle.fdd_star.specs.Named.{NamesField};
ghost use Rattle.fdd_star.specs.Stars.{EndedStarOf, IsDeepSomewhere};
ghost use Rattle.fdd_store.specs.Stores.{Has, Grows, Gives, tree_at};

use crate::fault::StarError;
use crate::names::Names;
use crate::progress::Progress;
use crate::repetition::part_in;
use crate::scope::Scope;
use fdd_differ::{LiteralList, unnamed};
use fdd_nodes::{Assignments, Cell};
use fdd_store::{Id, Store};
use nk_values::{Field, Lit};
use std::alloc::{AllocError, Global};

/// The star of a diagram of a store, and then an assignment: what the sequence of the two is. There is none if the
/// diagram names the field, or if some output takes more than 512 iterations. If memory runs out, there is an error.
///
/// The assignment comes first, since no iteration changes the field or asks for it. So each copy is made once.
pub fn ended_star(
    alloc: Global,
    store: &mut Store,
    p: Id,
    l: &Lit,
) -> Result<Option<Id>, AllocError>
    requires has { Has store.old p }
    requires few { AreFew (Leaf ((l.now ∷ []) ∷ [])) (tree_at store.old p) }
    ensures grows { Grows store.old store.new }
    ensures star { IfOk result (λ o. IfSome o (λ r. Gives store.new r (EndedStarOf (tree_at store.old p) l.now))) }
    ensures none { IfOk result
        (λ o. IfNone o (NamesField (tree_at store.old p) (lit_field l.now) ⊎ IsDeepSomewhere (tree_at store.old p))) }
{
    let names = Names::of(alloc, store, p)?;
    let named = names.named.as_slice();
    if names_field(named, l.field()) {
        return Ok(None);
    }
    let other = unnamed(&LiteralList { lits: named });
    let mut progress = Progress::new(alloc);
    let first = Assignments::one(alloc, *l)?;
    let cell = Cell::of(l);
    let scope = Scope {
        body: p,
        cell: &cell,
        first: &first,
        assigned: &names.assigned,
        other: &other,
    };
    match part_in(alloc, store, &mut progress, &scope) {
        Ok(r) => Ok(Some(r)),
        Err(StarError::Fault(_)) => Ok(None),
        Err(StarError::Memory) => Err(AllocError),
    }
}

// Whether some literal is of a field.
fn names_field(lits: &[Lit], f: Field) -> bool
    ensures none { result ≡ false → (m : Lit) → IsIn lits.now m → ¬ (lit_field m ≡ f) }
    ensures some { result ≡ true → (m : Lit) × IsIn lits.now m × (lit_field m ≡ f) }
{
    for l in lits {
        if l.field().place() == f.place() {
            return true;
        }
    }
    false
}
