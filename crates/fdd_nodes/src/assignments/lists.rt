//! Lists of assignments: what they make of a packet, and what they assign.
//!
//! Layer: diagrams; private. Called by `assignments`.
ghost use Rattle.std.specs.Prelude.{◌≡◌, ◌↔◌, IsTrue};
ghost use Rattle.nk_values.specs.declared.lit.Lit.{Lit};
ghost use Rattle.fdd_nodes.specs.Copies.{assigned};
ghost use Rattle.fdd_nodes.specs.Makes.{made, IsDisjointFrom};

use crate::cell::Cell;
use nk_values::{Field, Lit, Packet};

pub(crate) fn applied(lits: &[Lit], packet: &Packet) -> Packet
    ensures { result ≡ made lits.now packet.now }
{
    let mut changed = *packet;
    for l in lits {
        changed = l.put(&changed);
    }
    changed
}

pub(super) fn assigned_in(lits: &[Lit], f: Field) -> Option<u64>
    ensures { result ≡ assigned lits.now f }
{
    for l in lits {
        if l.field().place() == f.place() {
            return Some(l.value());
        }
    }
    None
}

pub(super) fn none_fixed(lits: &[Lit], cell: &Cell) -> bool
    ensures { IsTrue result ↔ IsDisjointFrom cell.now lits.now }
{
    for l in lits {
        if l.holds(cell.generic()) {
            return false;
        }
    }
    true
}
