//! Assignments of which later ones leave nothing.
//!
//! Layer: diagrams; private. Called by `following`.
ghost use Rattle.std.specs.Prelude.{◌≡◌, IsTrue};
ghost use Rattle.fdd_nodes.specs.Copies.{IsCopy, after};

use nk_values::Lit;

// Whether later literals assign each field that others do.
pub(crate) fn covers(later: &[Lit], lits: &[Lit]) -> bool
    requires later { IsCopy later.now }
    requires lits { IsCopy lits.now }
    ensures { IsTrue result → after lits.now later.now ≡ later.now }
{
    let Some((m, rest)) = lits.split_first() else {
        return true;
    };
    let Some((l, more)) = later.split_first() else {
        return false;
    };
    let (place, other) = (l.field().place(), m.field().place());
    if place < other {
        covers(more, lits)
    } else {
        place == other && covers(more, rest)
    }
}
