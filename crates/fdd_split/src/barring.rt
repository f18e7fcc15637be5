//! Which literals are barred, and lists that get one bar more.
//!
//! Layer: diagrams; private. Called by `branches`, `leaves` and `pairs`.
ghost use Rattle.std.specs.Prelude.{◌↔◌, IfOk, IsTrue, List};
ghost use Rattle.nk_values.specs.declared.lit.Lit.{Lit};
ghost use Rattle.nk_values.specs.Members.{IsIn};
ghost use Rattle.fdd_split.specs.Bars.{SomeBars, AddsBar, IsBarredBy};
ghost use Rattle.fdd_split.specs.declared.bars.Bar.TheVariants as bar;

use crate::bars::Bar;
use fdd_nodes::Assignments;
use nk_values::Lit;
use std::alloc::{AllocError, Global};

/// Whether some bar bars a literal.
pub(crate) fn are_barring(bars: &[Bar], l: &Lit) -> bool
    ensures { IsTrue result ↔ SomeBars bars.now l.now }
{
    for b in bars {
        if b.bars(l) {
            return true;
        }
    }
    false
}

/// Whether some bar bars all literals of the field with this place in the order of fields.
pub(crate) fn bar_field(bars: &[Bar], place: u64) -> bool
    ensures { IsTrue result → (x : Lit) → IsBarredBy (bar.OfField place) x → SomeBars bars.now x }
{
    for b in bars {
        if b.bars_field(place) {
            return true;
        }
    }
    false
}

/// The same bars and one more. Those that the new one covers are left out.
pub(crate) fn with_bar(alloc: Global, bars: &[Bar], bar: Bar) -> Result<Vec<Bar>, AllocError>
    ensures { IfOk result (λ r. AddsBar bars.now r.items bar) }
{
    let mut all = Vec::with_capacity(alloc, bars.len())?;
    for b in bars {
        if !bar.covers(b) {
            all.push(*b)?;
        }
    }
    all.push(bar)?;
    Ok(all)
}
