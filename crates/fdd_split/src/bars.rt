//! What the tests of a path bar of the literals that are assigned below it.
//!
//! Layer: diagrams; public. Called by many modules.
ghost use Rattle.std.specs.Prelude.{◌≡◌, ◌↔◌, IfOk, IsTrue};

use nk_values::Lit;
use std::alloc::{AllocError, Global};

/// Literals that no packet of a path holds, of those that are assigned below: all of the field with this place in the
/// order of fields, or a single one.
#[derive(Clone, Copy, PartialEq, Eq, Hash)]
pub enum Bar {
    OfField(u64),
    Literal(Lit),
}

impl Bar {
    ghost use Rattle.nk_values.specs.declared.lit.Lit.{Lit};
    ghost use Rattle.fdd_split.specs.Bars.{IsBarredBy};
    ghost use Rattle.fdd_split.specs.declared.bars.Bar.TheVariants as bar;

    /// Whether it bars a literal.
    pub(crate) fn bars(&self, l: &Lit) -> bool
        ensures { IsTrue result ↔ IsBarredBy self.now l.now }
    {
        match self {
            Bar::OfField(place) => l.field().place() == *place,
            Bar::Literal(m) => m.is(l),
        }
    }

    /// Whether it bars all literals of the field with this place.
    pub(crate) fn bars_field(&self, place: u64) -> bool
        ensures { IsTrue result → (x : Lit) → IsBarredBy (bar.OfField place) x → IsBarredBy self.now x }
    {
        match self {
            Bar::OfField(barred) => *barred == place,
            Bar::Literal(_) => false,
        }
    }

    /// Whether it bars the one literal that another bar bars.
    pub(crate) fn covers(&self, other: &Bar) -> bool
        ensures { IsTrue result → (x : Lit) → IsBarredBy other.now x → IsBarredBy self.now x }
    {
        match other {
            Bar::OfField(_) => false,
            Bar::Literal(l) => self.bars(l),
        }
    }
}

/// The same bars.
pub(crate) fn same_bars(alloc: Global, bars: &[Bar]) -> Result<Vec<Bar>, AllocError>
    ensures { IfOk result (λ r. r.items ≡ bars.now) }
{
    let mut all = Vec::with_capacity(alloc, bars.len())?;
    for b in bars {
        all.push(*b)?;
    }
    Ok(all)
}
