//! The parts of a world before anything has happened.
//!
//! Layer: the world; private. Called by `world`.
ghost use Rattle.std.specs.Prelude.{◌≡◌, IfOk, map};
ghost use Rattle.world_core.specs.Ends.{new_end};
ghost use Rattle.world_core.specs.Worlds.{pols_of, rows_of};

use crate::wired_switch::WiredSwitch;
use nk_values::Rows;
use policy_rows::{Intent, Version};
use std::alloc::{AllocError, Global};
use topology_model::DeclaredSwitch;

// The numbers of switches.
pub(super) fn numbers_of(alloc: Global, sites: &[DeclaredSwitch]) -> Result<Vec<u16>, AllocError>
    ensures { IfOk result (λ v. v.items ≡ map (λ s. s.sw) sites.now) }
{
    let mut numbers = Vec::new(alloc);
    for site in sites {
        numbers.push(site.sw)?;
    }
    Ok(numbers)
}

// Policies, and the rows of each.
#[derive(Drop)]
pub(super) struct VersionLists {
    pub(super) policies: Vec<Intent>,
    pub(super) rows: Vec<Rows>,
}

// The lists of versions.
pub(super) fn lists_of(alloc: Global, versions: Vec<Version>) -> Result<VersionLists, AllocError>
    ensures policies { IfOk result (λ p. p.policies.items ≡ pols_of versions.items) }
    ensures rows { IfOk result (λ p. p.rows.items ≡ rows_of versions.items) }
{
    let mut policies = Vec::new(alloc);
    let mut rows = Vec::new(alloc);
    for version in versions {
        let Version {
            pol,
            rows: its_rows,
        } = version;
        policies.push(pol)?;
        rows.push(its_rows)?;
    }
    Ok(VersionLists { policies, rows })
}

// New switches with these numbers.
pub(super) fn new_ends(
    alloc: Global,
    numbers: &[u16],
    capacity: usize,
) -> Result<Vec<WiredSwitch>, AllocError>
    ensures { IfOk result (λ v. v.items ≡ map (new_end capacity) numbers.now) }
{
    let mut wired = Vec::new(alloc);
    for sw in numbers {
        wired.push(WiredSwitch::new(alloc, *sw, capacity)?)?;
    }
    Ok(wired)
}
