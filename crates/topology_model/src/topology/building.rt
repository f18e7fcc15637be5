//! A topology, made of its lines.
//!
//! Layer: values and policies; private. Called by `topology`.
ghost use Rattle.std.specs.Prelude.{All, ◌≡◌, ◌<◌, length, IfOk, IfErr, OnOk, None, ℕ};
ghost use Rattle.nk_values.specs.Members.{IsIn};
ghost use Rattle.topology_model.specs.Lines.{IsLineInRange, layout_of, fault_from, fault_at, IsFaultless};
ghost use Rattle.topology_model.specs.Causes.{IsEndCause, IsCause};
ghost use Rattle.std.specs.Prelude.{◌≤◌};
ghost use Rattle.topology_model.specs.Firsts.{firsts_of};
ghost use Rattle.topology_model.specs.declared.line.DeclaredSwitch.{DeclaredSwitch};

use super::Topology;
use crate::draft::Draft;
use crate::fault::{LineError, TopoError};
use crate::line::{DeclaredSwitch, TopoLine};
use nk_values::TextFault;
use std::alloc::{AllocError, Global};

impl Topology {
    /// The topology of some lines, or the first fault. Each number is in its range: switches 1 to
    /// 65535, ports 1 to 65279. A link joins ports that lines before it declare.
    pub fn build(alloc: Global, lines: &[TopoLine]) -> Result<Topology, TopoError>
        requires { All IsLineInRange lines.now }
        ensures faultless { OnOk result (IsFaultless lines.now) }
        ensures layout { IfOk result (λ t. t ≡ layout_of lines.now) }
        ensures cause { IfErr result (IsCause lines.now) }
    {
        let draft = draft_of(alloc, lines)?;
        match Topology::finish(alloc, draft) {
            Ok(topology) => Ok(topology),
            Err(error) => Err(error.at(lines.len())),
        }
    }

    /// The topology of a draft, which needs an edge port.
    pub fn finish(alloc: Global, draft: Draft) -> Result<Topology, LineError>
        ensures layout { IfOk result (λ t. t ≡ draft) }
        ensures faultless { OnOk result (fault_from draft None ≡ None) }
        ensures cause { IfErr result (IsEndCause draft) }
    {
        let edges = draft.edges(alloc)?;
        if edges.is_empty() {
            return Err(LineError::Fault(TextFault::NoEdge));
        }
        let firsts = firsts_of(alloc, draft.switches())?;
        Ok(Topology {
            draft,
            edges,
            firsts,
        })
    }
}

// How many ports the switches before each one have.
pub(super) fn firsts_of(alloc: Global, sites: &[DeclaredSwitch]) -> Result<Vec<usize>, AllocError>
    requires few { length sites.now ≤ 256 }
    requires narrow { (s : DeclaredSwitch) → IsIn sites.now s → length s.ports ≤ 256 }
    ensures { IfOk result (λ v. v.items ≡ firsts_of 0 sites.now) }
{
    let mut firsts = Vec::new(alloc);
    let mut total = 0;
    for site in sites {
        firsts.push(total)?;
        total += site.ports.len();
    }
    Ok(firsts)
}

// What some lines declare, or their first fault but for the missing edge port.
fn draft_of(alloc: Global, lines: &[TopoLine]) -> Result<Draft, TopoError>
    requires { All IsLineInRange lines.now }
    ensures layout { IfOk result (λ d. d ≡ layout_of lines.now) }
    ensures faultless { OnOk result ((k : ℕ) → k < length lines.now → fault_at lines.now k ≡ None) }
    ensures cause { IfErr result (IsCause lines.now) }
{
    let mut draft = Draft::new(alloc);
    for (place, line) in lines.iter().enumerate() {
        if let Err(error) = draft.add(alloc, line) {
            return Err(error.at(place));
        }
    }
    Ok(draft)
}
