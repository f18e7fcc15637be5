//! A policy compiled to rows.
//!
//! Layer: tests; private. Called by the root of the crate.
ghost use Rattle.std.specs.Prelude.{IfOk, IfErr};
ghost use Rattle.nk_syntax.specs.Views.{term_of};
ghost use Rattle.policy_rows.specs.Limits.{AreWritable};
ghost use Rattle.policy_rows.specs.Means.{RowsMean};
ghost use Rattle.embed_example.specs.Refusals.{IsReason};

use fdd_compile::{CompileError, compile, names_few};
use nk_syntax::Pol;
use nk_values::{Band, CompileFault, EmitFault};
use policy_rows::{Intent, Version};
use std::alloc::{AllocError, Global};
use table_emitter::{EmitError, emit};
use thiserror::Error;
use topology_model::Topology;

// The tag that packets carry between switches.
const STAMP: u16 = 1;

/// Why a policy has no rows.
#[derive(Clone, Copy, Debug, PartialEq, Eq, Error)]
pub enum PolicyFault {
    /// It names more than 2,000 values.
    #[error("the policy names too many values")]
    ManyNames,
    /// It is not compiled.
    #[error("{0}")]
    Compile(CompileFault),
    /// It has a diagram, and no rows in this topology.
    #[error("{0}")]
    Emit(EmitFault),
}

/// A policy has no rows, or memory ran out.
#[derive(Clone, Copy, Debug, PartialEq, Eq, Error)]
pub enum PolicyError {
    #[error("{0}")]
    Fault(PolicyFault),
    #[error("out of memory")]
    Memory,
}

impl From<AllocError> for PolicyError {
    ghost use Rattle.std.specs.Prelude.{◌≡◌};
    ghost use Rattle.embed_example.specs.declared.policy.PolicyError.TheVariants.{Memory};

    ghost from_gives = { λ _ e. e ≡ Memory };

    fn from(_: AllocError) -> Self {
        PolicyError::Memory
    }
}

/// The policy with rows that stand for it: of each packet at a port, the first row that hits sends what the policy
/// gives. Or the first reason why there are none.
pub fn version(alloc: Global, pol: &Pol, topology: &Topology) -> Result<Version, PolicyError>
    ensures means { IfOk result (λ v. RowsMean v.rows (term_of pol.now) topology.now) }
    ensures writable { IfOk result (λ v. AreWritable v.rows) }
    ensures reason { IfErr result (IsReason topology.now (term_of pol.now)) }
{
    if !names_few(alloc, pol)? {
        return Err(PolicyError::Fault(PolicyFault::ManyNames));
    }
    let compiled = match compile(alloc, pol) {
        Ok(compiled) => compiled,
        Err(CompileError::Fault(fault)) => return Err(PolicyError::Fault(PolicyFault::Compile(
            fault,
        ))),
        Err(CompileError::Memory) => return Err(PolicyError::Memory),
    };
    match emit(
        alloc,
        &compiled,
        Intent::of(pol),
        topology,
        STAMP,
        Band::High,
    ) {
        Ok(version) => Ok(version),
        Err(EmitError::Fault(fault)) => Err(PolicyError::Fault(PolicyFault::Emit(fault))),
        Err(EmitError::Memory) => Err(PolicyError::Memory),
    }
}
