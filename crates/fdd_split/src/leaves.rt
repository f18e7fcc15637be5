//! The first literal by which two copies of a leaf could give one packet.
//!
//! Layer: diagrams; private. Called by `plain` and `threats`.
ghost use Rattle.std.specs.Prelude.{◌≡◌, ◌↔◌, IfOk, IfSome, IfNone, IsTrue, IsFalse, List};
ghost use Rattle.nk_values.specs.declared.lit.Lit.{Lit};
ghost use Rattle.nk_values.specs.Lits.{lit_field};
ghost use Rattle.nk_values.specs.Members.{IsIn};
ghost use Rattle.fdd_nodes.specs.Copies.{IsCopy};
ghost use Rattle.fdd_nodes.specs.Roots.{IsLeaf};
ghost use Rattle.fdd_store.specs.Canonical.{IsCanonical};
ghost use Rattle.fdd_store.specs.Stores.{Has, tree_at};
ghost use Rattle.fdd_split.specs.Pairs.{FieldThreat, IsCandidate, IsFirstOf, IsFirstWith};
ghost use Rattle.fdd_split.specs.Threats.{Threat, KeepsField};

use crate::barring::{are_barring, bar_field};
use crate::bars::Bar;
use crate::pairs::meets_some;
use fdd_nodes::Assignments;
use fdd_store::{Id, Store};
use nk_values::{Field, Lit};
use std::alloc::{AllocError, Global};

/// The first literal by which two copies of a leaf give one packet, of the packets that hold nothing barred.
///
/// Of each field the copies that assign it are compared with those that leave it, as long as an earlier literal can be
/// found.
pub(crate) fn leaf_threat(
    alloc: Global,
    store: &Store,
    bars: &[Bar],
    a: Id,
) -> Result<Option<Lit>, AllocError>
    requires has { Has store.now a }
    requires leaf { IsLeaf (tree_at store.now a) }
    requires made { IsCanonical (tree_at store.now a) }
    ensures { IfOk result (λ o. IsFirstOf (Threat bars.now (tree_at store.now a)) o) }
{
    let copies = store.leaf(a).copies();
    let mut first = None;
    for field in Field::ALL {
        if store.sets(a, field) {
            first = field_threat(alloc, bars, copies, field, first)?;
        }
    }
    Ok(first)
}

// The first of a literal that was found and of those of a field that some copy assigns which meets one that leaves it.
fn field_threat(
    alloc: Global,
    bars: &[Bar],
    copies: &[Assignments],
    field: Field,
    found: Option<Lit>,
) -> Result<Option<Lit>, AllocError>
    requires { (x : List Lit) → IsIn copies.now x → IsCopy x }
    ensures { IfOk result (λ o. IsFirstWith found (FieldThreat bars.now copies.now copies.now field) o) }
{
    if is_settled(bars, field, found) {
        return Ok(found);
    }
    if !has_candidate(bars, copies, field, found) {
        return Ok(found);
    }
    let keepers = keepers_of(alloc, copies, field)?;
    Ok(threat_beside(bars, copies, &keepers, field, found))
}

// The same, of the copies that leave the field.
fn threat_beside(
    bars: &[Bar],
    copies: &[Assignments],
    keepers: &[Assignments],
    field: Field,
    found: Option<Lit>,
) -> Option<Lit>
    requires copies { (x : List Lit) → IsIn copies.now x → IsCopy x }
    requires keepers { (d : List Lit) → IsIn keepers.now d → IsCopy d × KeepsField d field }
    ensures { IsFirstWith found (FieldThreat bars.now copies.now keepers.now field) result }
{
    if keepers.is_empty() {
        return found;
    }
    let mut first = found;
    for c in copies {
        if let Some(l) = literal_of(c.lits(), field) {
            if is_candidate(bars, &l, first) && meets_some(bars, c.lits(), keepers) {
                first = Some(l);
            }
        }
    }
    first
}

// Whether some copy assigns the field a literal that may be a threat before the one that was found.
fn has_candidate(bars: &[Bar], copies: &[Assignments], field: Field, found: Option<Lit>) -> bool
    requires { (x : List Lit) → IsIn copies.now x → IsCopy x }
    ensures { IsFalse result → (c : List Lit) → IsIn copies.now c → (x : Lit) → IsIn c x → lit_field x ≡ field →
        ¬ IsCandidate bars.now x found }
{
    for c in copies {
        if let Some(l) = literal_of(c.lits(), field) {
            if is_candidate(bars, &l, found) {
                return true;
            }
        }
    }
    false
}

// Whether no literal of a field can be a threat before the one that was found: an earlier field has that one, or all
// literals of the field are barred.
fn is_settled(bars: &[Bar], field: Field, found: Option<Lit>) -> bool
    ensures { IsTrue result → (x : Lit) → lit_field x ≡ field → ¬ IsCandidate bars.now x found }
{
    let place = field.place();
    let is_behind = match found {
        None => false,
        Some(m) => m.field().place() < place,
    };
    is_behind || bar_field(bars, place)
}

// Whether a literal is not barred, and comes before the one that was found.
fn is_candidate(bars: &[Bar], l: &Lit, found: Option<Lit>) -> bool
    ensures { IsTrue result ↔ IsCandidate bars.now l.now found }
{
    let is_before = match found {
        None => true,
        Some(m) => l.precedes(&m),
    };
    is_before && !are_barring(bars, l)
}

// The copies that leave a field.
fn keepers_of(
    alloc: Global,
    copies: &[Assignments],
    field: Field,
) -> Result<Vec<Assignments>, AllocError>
    ensures { IfOk result (λ r. (d : List Lit) → IsIn r.items d ↔ (IsIn copies.now d × KeepsField d field)) }
{
    let mut keepers = Vec::new(alloc);
    for c in copies {
        if literal_of(c.lits(), field).is_none() {
            keepers.push(c.copy()?)?;
        }
    }
    Ok(keepers)
}

// The literal of a field that a copy assigns.
fn literal_of(copy: &[Lit], field: Field) -> Option<Lit>
    ensures some { IfSome result (λ l. IsIn copy.now l × (lit_field l ≡ field)) }
    ensures none { IfNone result (KeepsField copy.now field) }
{
    for l in copy {
        if l.field().place() == field.place() {
            return Some(*l);
        }
    }
    None
}
