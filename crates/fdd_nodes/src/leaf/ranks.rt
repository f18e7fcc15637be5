//! Many copies sorted by their first literals.
//!
//! Layer: diagrams; private. Called by `leaf`.
ghost use Rattle.std.specs.Prelude.{◌≡◌, IfOk, map};
ghost use Rattle.nk_values.specs.Members.{SameMembers};
ghost use Rattle.fdd_nodes.specs.Ranks.{copy_of};

use crate::assignments::Assignments;
use nk_values::Lit;
use std::alloc::{AllocError, Global};

// So few copies are sorted where they stand.
const FEW: usize = 32;

// A copy, and the ranks of its first three literals, which tell most copies apart with no look at them.
#[derive(Drop)]
struct RankedCopy {
    ranks: (u64, u64, u64),
    copy: Assignments,
}

/// The same copies in rising order. Many copies are ordered by their first three literals alone.
pub(super) fn sorted(
    alloc: Global,
    mut copies: Vec<Assignments>,
) -> Result<Vec<Assignments>, AllocError>
    ensures { IfOk result (λ r. SameMembers r.items copies.items) }
{
    if copies.len() < FEW {
        copies.sort_unstable();
        return Ok(copies);
    }
    let mut all = with_ranks(alloc, copies)?;
    all.sort_unstable_by_key(|one| one.ranks);
    without_ranks(alloc, all)
}

fn with_ranks(alloc: Global, copies: Vec<Assignments>) -> Result<Vec<RankedCopy>, AllocError>
    ensures { IfOk result (λ r. map copy_of r.items ≡ copies.items) }
{
    let mut all = Vec::with_capacity(alloc, copies.len())?;
    for copy in copies {
        let ranks = ranks_of(copy.lits());
        all.push(RankedCopy { ranks, copy })?;
    }
    Ok(all)
}

fn without_ranks(alloc: Global, all: Vec<RankedCopy>) -> Result<Vec<Assignments>, AllocError>
    ensures { IfOk result (λ r. r.items ≡ map copy_of all.items) }
{
    let mut copies = Vec::with_capacity(alloc, all.len())?;
    for one in all {
        let RankedCopy { copy, ranks: _ } = one;
        copies.push(copy)?;
    }
    Ok(copies)
}

// The ranks of the first three literals, of which those that are missing come first.
fn ranks_of(lits: &[Lit]) -> (u64, u64, u64) {
    (rank_at(lits, 0), rank_at(lits, 1), rank_at(lits, 2))
}

fn rank_at(lits: &[Lit], place: usize) -> u64 {
    match lits.get(place) {
        None => 0,
        Some(l) => l.rank().saturating_add(1),
    }
}
