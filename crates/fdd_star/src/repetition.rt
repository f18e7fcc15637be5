//! The star of a diagram, cell by cell.
//!
//! Layer: diagrams; public. Called by `ending` here, and by fdd_compile.
ghost use Rattle.std.specs.Prelude.{◌≡◌, [], ◌∷◌, MatchResult, OnOk};
ghost use Rattle.nk_values.specs.Held.{put};
ghost use Rattle.nk_values.specs.Lits.{lit_field};
ghost use Rattle.nk_values.specs.declared.packet.Packet.{Packet};
ghost use Rattle.nk_values.specs.Packets.{IsInRange};
ghost use Rattle.fdd_nodes.specs.Cells.{IsFresh, IsUnset, IsValid};
ghost use Rattle.fdd_nodes.specs.Names.{AreFew, IsFew};
ghost use Rattle.fdd_nodes.specs.Trees.{Leaf};
ghost use Rattle.fdd_star.specs.Faults.{IsErrorIn};
ghost use Rattle.fdd_star.specs.Found.{AreFound, IsPart};
ghost use Rattle.fdd_star.specs.Named.{Covers};
ghost use Rattle.fdd_star.specs.Narrow.{IsNarrowed};
ghost use Rattle.fdd_star.specs.Reaches.{HoldsAll};
ghost use Rattle.fdd_star.specs.Shared.{AreShared};
ghost use Rattle.fdd_star.specs.Stars.{StarOf, IsErrorOf, IsShallow};
ghost use Rattle.fdd_store.specs.Operations.{CofactorOf};
ghost use Rattle.fdd_store.specs.Stores.{Has, Grows, Gives, tree_at};

use crate::fault::StarError;
use crate::names::Names;
use crate::parts::Parts;
use crate::progress::Progress;
use crate::scope::Scope;
use crate::shared::{SharedParts, is_shared};
use fdd_differ::{LiteralList, unnamed};
use fdd_nodes::{Assignments, Cell};
use fdd_store::{Id, Store};
use nk_values::Lit;
use std::alloc::Global;

/// The star `p*` of a diagram of a store: what any number of iterations give (ICFP 2015, section 3).
///
/// From the packet of a cell, which holds what is fixed and nothing that the diagram names elsewhere, the iterations
/// are made one by one, each on what the one before added. Each test that is asked of an unset field parts the cell.
/// For the packets on which it holds and no earlier one does, the star is found anew, so that no cell is gone through
/// twice. Tests of one field share their part if the diagram makes the same of what each leaves. 512 iterations are
/// made at most; if one more would add something, the fault has a packet and an output that show it.
pub fn star(alloc: Global, store: &mut Store, p: Id) -> Result<Id, StarError>
    requires has { Has store.old p }
    requires few { IsFew (tree_at store.old p) }
    ensures grows { Grows store.old store.new }
    ensures star { MatchResult result (λ r. Gives store.new r (StarOf (tree_at store.old p)))
        (λ e. IsErrorOf (tree_at store.old p) e) }
    ensures never_deep { OnOk result (IsShallow (tree_at store.old p)) }
{
    let none = Assignments::none(alloc)?;
    let names = Names::of(alloc, store, p)?;
    let other = unnamed(&LiteralList {
        lits: names.named.as_slice(),
    });
    let mut progress = Progress::new(alloc);
    let cell = Cell::whole();
    let scope = Scope {
        body: p,
        cell: &cell,
        first: &none,
        assigned: &names.assigned,
        other: &other,
    };
    part_in(alloc, store, &mut progress, &scope)
}

/// The star on the packets of a cell that hold none of the missed literals. A first copy comes before it, which the
/// cell holds.
#[cycle(star)]
pub(crate) fn part_in(
    alloc: Global,
    store: &mut Store,
    progress: &mut Progress,
    scope: &Scope<'_>,
) -> Result<Id, StarError>
    requires has { Has store.old scope.now.body }
    requires few { AreFew (Leaf (scope.now.first.now ∷ [])) (tree_at store.old scope.now.body) }
    requires valid { IsValid scope.now.cell.now }
    requires found { AreFound store.old progress.old.found }
    requires range { IsInRange scope.now.other.now }
    requires fresh { IsFresh scope.now.other.now (tree_at store.old scope.now.body) }
    requires assigned { Covers scope.now.assigned.now.keys (tree_at store.old scope.now.body) }
    requires held { HoldsAll scope.now.cell.now scope.now.first.now }
    ensures grows { Grows store.old store.new }
    ensures part { MatchResult result
        (IsPart store.new scope.now.first.now (tree_at store.old scope.now.body) scope.now.cell.now
        progress.old.missed.keys progress.new.found progress.new.missed.keys)
        (λ e. IsErrorIn (tree_at store.old scope.now.body) scope.now.cell.now scope.now.other.now e) }
{
    let mut parts = Parts::of(alloc, store, progress, scope)?;
    while let Some(l) = parts.left.pop() {
        let missed = &mut progress.missed;
        missed.truncate(missed.len().saturating_sub(1));
        parts.shared.move_to(l.field());
        let narrowed = Scope {
            body: parts.body,
            ..*scope
        };
        let part = part_of(alloc, store, progress, &mut parts.shared, &narrowed, &l)?;
        parts.all = store.choice(alloc, l, part, parts.all)?;
    }
    Ok(parts.all)
}

// The star where a literal holds of a field that the cell leaves open: that of a literal of which the body leaves the
// same, or found anew.
#[cycle(star)]
fn part_of(
    alloc: Global,
    store: &mut Store,
    progress: &mut Progress,
    shared: &mut SharedParts,
    scope: &Scope<'_>,
    l: &Lit,
) -> Result<Id, StarError>
    requires has { Has store.old scope.now.body }
    requires few { AreFew (Leaf (scope.now.first.now ∷ [])) (tree_at store.old scope.now.body) }
    requires valid { IsValid scope.now.cell.now }
    requires found { AreFound store.old progress.old.found }
    requires shared { AreShared store.old scope.now.first.now (tree_at store.old scope.now.body) scope.now.cell.now
        progress.old.missed.keys shared.old }
    requires field { shared.old.field ≡ lit_field l.now }
    requires range { IsInRange scope.now.other.now }
    requires fresh { IsFresh scope.now.other.now (tree_at store.old scope.now.body) }
    requires assigned { Covers scope.now.assigned.now.keys (tree_at store.old scope.now.body) }
    requires held { HoldsAll scope.now.cell.now scope.now.first.now }
    requires is_unset { IsUnset scope.now.cell.now (lit_field l.now) }
    ensures grows { Grows store.old store.new }
    ensures part { MatchResult result
        (IsPart store.new scope.now.first.now (tree_at store.old scope.now.body) (put l.now scope.now.cell.now)
        progress.old.missed.keys progress.new.found progress.new.missed.keys)
        (λ e. IsErrorIn (tree_at store.old scope.now.body) (put l.now scope.now.cell.now) scope.now.other.now e) }
    ensures shared { OnOk result
        (AreShared store.new scope.now.first.now (tree_at store.old scope.now.body) scope.now.cell.now
        progress.old.missed.keys shared.new) }
{
    let body = scope.body;
    let left = store.cofactor(alloc, body, *l)?;
    if let Some(part) = shared.parts.get(&left) {
        return Ok(*part);
    }
    let inner = inner_of(store, body, left, l);
    let cell = scope.cell.with(l);
    let within = Scope {
        body: inner,
        cell: &cell,
        ..*scope
    };
    let part = part_in(alloc, store, progress, &within)?;
    if is_shared(store, scope.assigned, body, l) {
        shared.keep(left, part)?;
    }
    Ok(part)
}

// What makes the iterations of a body if a literal holds. No iteration changes a field that the body never sets: then
// it is what the literal leaves of the body.
fn inner_of(store: &Store, body: Id, left: Id, l: &Lit) -> Id
    requires has { Has store.now body }
    requires has_left { Has store.now left }
    requires left { CofactorOf l.now (tree_at store.now body) (tree_at store.now left) }
    ensures has { Has store.now result }
    ensures inner { (c : Packet) → IsNarrowed (tree_at store.now body) (put l.now c) (tree_at store.now result) }
{
    if store.sets(body, l.field()) {
        body
    } else {
        left
    }
}
