//! The rows that a switch holds once the batch of the phase is done.
//!
//! Layer: updates; private. Adds calls to `Coordinator`.
ghost use Rattle.std.specs.Prelude.{◌≡◌, ◌++◌, ◌∷◌, [], ◌-◌, ◌==◌, None, Some, IfOk, OnOk, take};
ghost use Rattle.std.specs.List.{filter};
ghost use Rattle.update_plan.specs.Batches.{internal_rows, ports_at};
ghost use Rattle.update_coordinator.specs.Batches.{held, internal_of, portion_at, portion_of};
ghost use Rattle.update_coordinator.specs.Batches.{planned, version_at};

use crate::batch::version_at;
use crate::coordinator::Coordinator;
use crate::drains::draining_in;
use crate::phase::Phase;
use crate::portion::Portion;
use nk_values::{Band, Duplicate, PortKind, PortRows, Row, Rows};
use std::alloc::{AllocError, Global};
use update_plan::internal;

impl Coordinator {
    /// The rows that the switch with this number holds once the batch of the phase is done, if it refuses none. A halt
    /// keeps the phase.
    pub fn planned(&self, alloc: Global, sw: u16) -> Result<Vec<Row>, AllocError>
        ensures rows { IfOk result (λ v. v.items ≡ planned self.now.versions self.now.swept self.now.phase sw) }
        // Without overlap these are all of the current policy, or of it and the one that comes in or goes.
        ensures alone { self.now.overlap ≡ None →
            IfOk result (λ v. v.items ≡ held self.now.versions self.now.phase sw) }
    {
        planned_in(alloc, &self.versions, self.swept, self.phase, sw)
    }
}

fn planned_in(
    alloc: Global,
    versions: &[Rows],
    swept: usize,
    phase: Phase,
    sw: u16,
) -> Result<Vec<Row>, AllocError>
    ensures { IfOk result (λ v. v.items ≡ planned versions.now swept phase sw) }
{
    let staying = draining_in(versions, phase.swept_after(swept), phase);
    let mut rows = internal_of(alloc, staying, sw)?;
    let held = held_in(alloc, versions, phase, sw)?;
    append(alloc, &mut rows, &held)?;
    Ok(rows)
}

// The internal rows of policies at a switch.
fn internal_of(alloc: Global, versions: &[Rows], sw: u16) -> Result<Vec<Row>, AllocError>
    ensures { IfOk result (λ v. v.items ≡ internal_of versions.now sw) }
{
    let mut rows = Vec::new(alloc);
    for version in versions {
        append_internal(alloc, &mut rows, version.ports.as_slice(), sw)?;
    }
    Ok(rows)
}

// Puts copies of the internal rows of the ports of a switch at the end.
fn append_internal(
    alloc: Global,
    rows: &mut Vec<Row>,
    ports: &[PortRows],
    sw: u16,
) -> Result<(), AllocError>
    ensures { OnOk result (rows.new.items ≡ rows.old.items ++ internal_rows (filter (λ p. p.sw == sw) ports.now)) }
{
    for port in ports {
        if port.sw == sw {
            append(alloc, rows, internal(port.kind, port.rows.as_slice()))?;
        }
    }
    Ok(())
}

// The rows of the current policy, and of the one that comes in or goes.
fn held_in(alloc: Global, versions: &[Rows], phase: Phase, sw: u16) -> Result<Vec<Row>, AllocError>
    ensures { IfOk result (λ v. v.items ≡ held versions.now phase sw) }
{
    match phase {
        Phase::Opening => Ok(Vec::new(alloc)),
        Phase::Idle(i) | Phase::Clean(i) | Phase::Tidy(i) | Phase::Sweep(i, _) => {
            rows_of(alloc, versions, i, sw, Portion::AllBut(0))
        }
        Phase::Install(i) => both(
            alloc,
            versions,
            i,
            sw,
            Portion::AllBut(0),
            Portion::First(0),
        ),
        Phase::Flip(i, round) => {
            both(
                alloc,
                versions,
                i,
                sw,
                Portion::AllBut(round),
                Portion::First(round),
            )
        }
        Phase::Drain(i) => both(
            alloc,
            versions,
            i,
            sw,
            Portion::First(0),
            Portion::AllBut(0),
        ),
    }
}

// The rows of a switch by the policy before this one, and by this one.
fn both(
    alloc: Global,
    versions: &[Rows],
    policy: usize,
    sw: u16,
    old: Portion,
    new: Portion,
) -> Result<Vec<Row>, AllocError>
    ensures { IfOk result (λ v. v.items ≡ portion_of old (version_at versions.now (policy - 1)) sw ++ portion_of new
        (version_at versions.now policy) sw) }
{
    let mut rows = rows_of(alloc, versions, policy.saturating_sub(1), sw, old)?;
    let more = rows_of(alloc, versions, policy, sw, new)?;
    append(alloc, &mut rows, &more)?;
    Ok(rows)
}

// The rows of a switch by a policy.
fn rows_of(
    alloc: Global,
    versions: &[Rows],
    policy: usize,
    sw: u16,
    portion: Portion,
) -> Result<Vec<Row>, AllocError>
    ensures { IfOk result (λ v. v.items ≡ portion_of portion (version_at versions.now policy) sw) }
{
    match version_at(versions, policy) {
        None => Ok(Vec::new(alloc)),
        Some(rows) => rows_at(alloc, rows.band, rows.ports.as_slice(), sw, portion),
    }
}

fn rows_at(
    alloc: Global,
    band: Band,
    ports: &[PortRows],
    sw: u16,
    portion: Portion,
) -> Result<Vec<Row>, AllocError>
    ensures { IfOk result (λ v. v.items ≡ portion_at portion band (filter (λ p. p.sw == sw) ports.now)) }
{
    let mut rows = Vec::new(alloc);
    for port in ports {
        if port.sw == sw {
            append(alloc, &mut rows, there(band, port, portion))?;
        }
    }
    Ok(rows)
}

// The rows of a port that are there: all that come and go at once, and a portion of those that do round by round.
fn there(band: Band, port: &PortRows, portion: Portion) -> &[Row]
    ensures { result.now ≡ portion_at portion band (port.now ∷ []) }
{
    let rows = port.rows.as_slice();
    match (band, port.kind) {
        (Band::High, PortKind::Edge) => first(rows, portion.len(rows.len())),
        _ => rows,
    }
}

// A number of the first rows, or all.
fn first(rows: &[Row], count: usize) -> &[Row]
    ensures { result.now ≡ take count rows.now }
{
    let (first, _) = rows.split_at(count.min(rows.len()));
    first
}

// Puts copies of rows at the end.
fn append(alloc: Global, rows: &mut Vec<Row>, more: &[Row]) -> Result<(), AllocError>
    ensures { OnOk result (rows.new.items ≡ rows.old.items ++ more.now) }
{
    for row in more {
        rows.push(row.copy(alloc)?)?;
    }
    Ok(())
}
