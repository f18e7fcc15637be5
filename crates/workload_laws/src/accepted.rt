//! Policies of workloads compiled, which memory alone can hinder.
//!
//! Layer: laws alone; public. Called by workload_gen.
ghost use Rattle.std.specs.Prelude.{◌≡◌, IfOk};
ghost use Rattle.nk_values.specs.Tags.{IsVlanId};
ghost use Rattle.nk_syntax.specs.Views.{term_of};
ghost use Rattle.fdd_nodes.specs.Trees.{tree};
ghost use Rattle.fdd_compile.specs.Compiles.{CompiledOf};
ghost use Rattle.fdd_compile.specs.Places.{diagram_of};
ghost use Rattle.workload_laws.specs.Leaves.{AreCopies, AreRising};
ghost use Rattle.workload_laws.specs.Emitted.{IsVersionIn};
ghost use Rattle.workload_laws.specs.Workload.{IsWorkload};

use fdd_compile::{CompileError, CompiledPolicy, compile};
use fdd_nodes::{Leaf, Node};
use nk_syntax::Pol;
use nk_values::Band;
use policy_rows::{Intent, Version};
use std::alloc::{AllocError, Global};
use table_emitter::{EmitError, emit};
use topology_model::Topology;

/// A policy of a workload with its rows in a topology, with a stamp and a band. None of the reasons against a policy or
/// its rows holds of it, whatever the topology, so it fails only if memory runs out.
pub fn version_of(
    alloc: Global,
    pol: &Pol,
    topology: &Topology,
    stamp: u16,
    band: Band,
) -> Result<Version, AllocError>
    requires policy { IsWorkload (term_of pol.now) }
    requires stamp { IsVlanId stamp }
    ensures policy { IfOk result (λ v. term_of v.pol ≡ term_of pol.now) }
    ensures version { IfOk result (IsVersionIn topology.now stamp band) }
{
    let compiled = diagram_of(alloc, pol)?;
    see_node(compiled.diagram().root());
    let _switches = topology.switches();
    match emit(alloc, &compiled, Intent::of(pol), topology, stamp, band) {
        Ok(version) => Ok(version),
        Err(EmitError::Memory) => Err(AllocError),
        Err(EmitError::Fault(_)) => unreachable!(),
    }
}

// The diagram of a workload's policy.
fn diagram_of(alloc: Global, pol: &Pol) -> Result<CompiledPolicy, AllocError>
    requires { IsWorkload (term_of pol.now) }
    ensures { IfOk result (λ c. CompiledOf (term_of pol.now) (diagram_of c)) }
{
    match compile(alloc, pol) {
        Ok(compiled) => Ok(compiled),
        Err(CompileError::Memory) => Err(AllocError),
        Err(CompileError::Fault(_)) => unreachable!(),
    }
}

// Sees that the copies of each leaf rise.
fn see_node(node: &Node)
    ensures { AreRising (tree node.now) }
{
    match node {
        Node::Leaf(leaf) => see_leaf(leaf),
        Node::Test(_, t, e) => {
            see_node(t);
            see_node(e);
        }
    }
}

fn see_leaf(leaf: &Leaf)
    ensures { AreCopies leaf.now }
{
    for copy in leaf.copies() {
        let _lits = copy.lits();
    }
}
