//! What is barred in the branches of a test.
//!
//! Layer: diagrams; private. Called by `splits` and `threats`.
ghost use Rattle.std.specs.Prelude.{◌≡◌, IfOk};
ghost use Rattle.nk_values.specs.declared.lit.Lit.{Lit};
ghost use Rattle.nk_values.specs.Lits.{lit_field};
ghost use Rattle.nk_values.specs.Ranges.{place};
ghost use Rattle.fdd_store.specs.Stores.{Has, tree_at};
ghost use Rattle.fdd_split.specs.Bars.{IsBarredBy, Narrows};
ghost use Rattle.fdd_split.specs.declared.bars.Bar.TheVariants as bar;

use crate::barring::with_bar;
use crate::bars::{Bar, same_bars};
use fdd_store::{Id, Store};
use nk_values::{Field, Lit};
use std::alloc::{AllocError, Global};

/// What is barred in a diagram on the packets that hold a literal: a test before it holds.
pub(crate) fn bars_then(
    alloc: Global,
    store: &Store,
    bars: &[Bar],
    l: &Lit,
    branch: Id,
) -> Result<Vec<Bar>, AllocError>
    requires { Has store.now branch }
    ensures { IfOk result (λ r. Narrows bars.now r.items (bar.OfField (place (lit_field l.now)))
        (tree_at store.now branch)) }
{
    let field = l.field();
    below(
        alloc,
        store,
        bars,
        Bar::OfField(field.place()),
        field,
        branch,
    )
}

/// The same on the packets that do not hold the literal.
pub(crate) fn bars_else(
    alloc: Global,
    store: &Store,
    bars: &[Bar],
    l: &Lit,
    branch: Id,
) -> Result<Vec<Bar>, AllocError>
    requires { Has store.now branch }
    ensures { IfOk result (λ r. Narrows bars.now r.items (bar.Literal l.now) (tree_at store.now branch)) }
{
    below(alloc, store, bars, Bar::Literal(*l), l.field(), branch)
}

/// What is barred on the packets that do not hold a literal, in the list of what was barred before.
pub(crate) fn with_literal(
    store: &Store,
    mut bars: Vec<Bar>,
    l: &Lit,
    branch: Id,
) -> Result<Vec<Bar>, AllocError>
    requires { Has store.now branch }
    ensures { IfOk result (λ r. Narrows bars.items r.items (bar.Literal l.now) (tree_at store.now branch)) }
{
    if store.sets(branch, l.field()) {
        bars.push(Bar::Literal(*l))?;
    }
    Ok(bars)
}

// One bar more, of literals of a field, if the diagram assigns the field.
fn below(
    alloc: Global,
    store: &Store,
    bars: &[Bar],
    bar: Bar,
    field: Field,
    branch: Id,
) -> Result<Vec<Bar>, AllocError>
    requires has { Has store.now branch }
    requires field { (x : Lit) → IsBarredBy bar x → lit_field x ≡ field }
    ensures { IfOk result (λ r. Narrows bars.now r.items bar (tree_at store.now branch)) }
{
    if store.sets(branch, field) {
        with_bar(alloc, bars, bar)
    } else {
        same_bars(alloc, bars)
    }
}
