//! The coordinator of a document's policies, before anything has happened.
//!
//! Layer: the program; private. Called by `drive`.
ghost use Rattle.std.specs.Prelude.{◌≡◌, IfOk, None, map};
ghost use Rattle.update_coordinator.specs.Starts.{initial_control};
ghost use Rattle.update_laws.specs.Settings.{AreVersions};
ghost use Rattle.world_core.specs.Worlds.{numbers_of, rows_of};

use document_text::{DeclaredSwitch, Topology};
use nk_values::Rows;
use policy_rows::Version;
use std::alloc::{AllocError, Global};
use update_coordinator::Coordinator;

/// The coordinator of these policies at the switches of a topology. The first loss halts it.
pub(crate) fn begin(
    alloc: Global,
    topology: &Topology,
    versions: Vec<Version>,
) -> Result<Coordinator, AllocError>
    requires { AreVersions topology.now versions.items None }
    ensures { IfOk result (λ c. c ≡ initial_control (rows_of versions.items) (numbers_of topology.now.switches) 0
        None) }
{
    let numbers = numbers_of(alloc, topology.switches())?;
    let rows = rows_of(alloc, versions)?;
    Coordinator::new(alloc, rows, &numbers, 0, None)
}

// The numbers of switches.
fn numbers_of(alloc: Global, sites: &[DeclaredSwitch]) -> Result<Vec<u16>, AllocError>
    ensures { IfOk result (λ v. v.items ≡ numbers_of sites.now) }
{
    let mut numbers = Vec::new(alloc);
    for site in sites {
        numbers.push(site.sw)?;
    }
    Ok(numbers)
}

// The rows of versions.
fn rows_of(alloc: Global, versions: Vec<Version>) -> Result<Vec<Rows>, AllocError>
    ensures { IfOk result (λ v. v.items ≡ rows_of versions.items) }
{
    let mut all = Vec::new(alloc);
    for version in versions {
        let Version { pol: _pol, rows } = version;
        all.push(rows)?;
    }
    Ok(all)
}
