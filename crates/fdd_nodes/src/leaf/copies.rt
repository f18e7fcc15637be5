//! Lists of copies: their order, and what they make of a packet.
//!
//! Layer: diagrams; private. Called by `leaf`.
ghost use Rattle.std.specs.Prelude.{◌≡◌, ◌↔◌, IsTrue, IfOk, MatchOption};
ghost use Rattle.std.specs.List.Sorted.{IsStrictlySortedBy};
ghost use Rattle.nk_values.specs.Members.{IsIn};
ghost use Rattle.fdd_nodes.specs.Copies.{copy_cmp, IsPlace};
ghost use Rattle.fdd_nodes.specs.Makes.{Makes, MakesAll, AreDisjointFrom};
ghost use Rattle.fdd_nodes.specs.Trees.{outcomes};

use crate::assignments::Assignments;
use crate::cell::Cell;
use nk_values::Packet;
use std::alloc::{AllocError, Global};
use std::cmp::Ordering;

// Whether each copy comes before the next one.
pub(super) fn is_rising(copies: &[Assignments]) -> bool
    ensures { IsTrue result → IsStrictlySortedBy copy_cmp copies.now }
{
    for n in 1..copies.len() {
        if copies[n - 1].cmp(&copies[n]) != Ordering::Less {
            return false;
        }
    }
    true
}

// Where a copy is to stand among rising copies, or none if it stands already.
pub(super) fn place_for(copies: &[Assignments], copy: &Assignments) -> Option<usize>
    requires { IsStrictlySortedBy copy_cmp copies.now }
    ensures { MatchOption result (IsIn copies.now copy.now) (IsPlace copy.now copies.now) }
{
    let n = copies.len();
    if n > 0 && copies[n - 1].cmp(copy) == Ordering::Less {
        return Some(n);
    }
    copies.binary_search(copy).err()
}

pub(super) fn copied(alloc: Global, copies: &[Assignments]) -> Result<Vec<Assignments>, AllocError>
    ensures { IfOk result (λ r. r.items ≡ copies.now) }
{
    let mut all = Vec::with_capacity(alloc, copies.len())?;
    for c in copies {
        all.push(c.copy()?)?;
    }
    Ok(all)
}

// What copies make of a packet, one packet for each copy.
pub(crate) fn made_by(
    alloc: Global,
    copies: &[Assignments],
    packet: &Packet,
) -> Result<Vec<Packet>, AllocError>
    ensures { IfOk result (λ r. r.items ≡ outcomes copies.now packet.now) }
{
    let mut all = Vec::with_capacity(alloc, copies.len())?;
    for c in copies {
        all.push(c.apply(packet))?;
    }
    Ok(all)
}

// Whether some copy makes the second packet of the first.
pub(crate) fn makes(copies: &[Assignments], packet: &Packet, made: &Packet) -> bool
    ensures { IsTrue result ↔ Makes copies.now packet.now made.now }
{
    for c in copies {
        if c.apply(packet) == *made {
            return true;
        }
    }
    false
}

// Whether the second copies make all that the first make of a packet.
pub(super) fn makes_all(xs: &[Assignments], ys: &[Assignments], packet: &Packet) -> bool
    ensures { IsTrue result ↔ MakesAll xs.now ys.now packet.now }
{
    for c in xs {
        if !makes(ys, packet, &c.apply(packet)) {
            return false;
        }
    }
    true
}

// Whether a cell fixes no literal of the copies.
pub(crate) fn are_disjoint_from(copies: &[Assignments], cell: &Cell) -> bool
    ensures { IsTrue result ↔ AreDisjointFrom cell.now copies.now }
{
    for c in copies {
        if !c.is_disjoint_from(cell) {
            return false;
        }
    }
    true
}
