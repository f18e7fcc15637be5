//! The policies of workloads.
//!
//! Layer: the world; private. Called by `documents`.
ghost use Rattle.std.specs.Prelude.{◌≡◌, ◌≤◌, ◌++◌, IfOk, OnOk, map};
ghost use Rattle.nk_values.specs.Lits.{lit_field, lit_value};
ghost use Rattle.nk_values.specs.Ranges.{IsLiteralOf};
ghost use Rattle.nk_syntax.specs.Views.{term_of};
ghost use Rattle.workload_gen.specs.Documents.{policies};
ghost use Rattle.workload_gen.specs.Words.{behind};
ghost use Rattle.workload_laws.specs.Workload.{exit, hop, hops_at, workload};

use crate::words::number_by;
use nk_syntax::{Pol, Pols, Pred};
use nk_values::{Field, Lit};
use rand_pcg::Lcg64Xsh32;
use std::alloc::{AllocError, Global};

/// As many policies as are asked for, on a line of switches, each of which blocks a destination that a word draws.
pub(crate) fn policies(
    alloc: Global,
    switches: u16,
    count: u16,
    rng: &mut Lcg64Xsh32,
) -> Result<Vec<Pol>, AllocError>
    requires some { 1 ≤ switches }
    requires few { switches ≤ 32 }
    ensures policies { IfOk result (λ v. map term_of v.items ≡ policies switches count rng.old) }
    ensures words { OnOk result (rng.new ≡ behind count rng.old) }
{
    let mut policies = Vec::new(alloc);
    for drawn in 0..count {
        let blocked = number_by(switches, rng);
        policies.push(policy(alloc, switches, blocked)?)?;
    }
    Ok(policies)
}

// The policy of a line of switches that blocks a destination: each switch sends packets on towards their destination.
fn policy(alloc: Global, switches: u16, blocked: u16) -> Result<Pol, AllocError>
    requires { switches ≤ 32 }
    ensures { IfOk result (λ p. term_of p ≡ workload switches blocked) }
{
    let mut items = Vec::new(alloc);
    for switch in 1..switches + 1 {
        add_hops(alloc, switches, blocked, switch, &mut items)?;
    }
    Ok(Pol::Sum(Pols { items }))
}

// Adds what a switch does with packets to each destination but the blocked one.
fn add_hops(
    alloc: Global,
    switches: u16,
    blocked: u16,
    switch: u16,
    items: &mut Vec<Pol>,
) -> Result<(), AllocError>
    requires few { switches ≤ 32 }
    requires switch { 1 ≤ switch }
    ensures { OnOk result (map term_of items.new.items ≡ map term_of items.old.items ++ hops_at switches blocked
        switch) }
{
    for destination in 1..switches + 1 {
        if destination != blocked {
            items.push(hop(alloc, switch, destination)?)?;
        }
    }
    Ok(())
}

// `sw=i; ethDst=d; pt:=x`, where x is the port of switch i towards d.
#[tactic(auto, using(topology_model::proofs::Rows::rows))]
fn hop(alloc: Global, switch: u16, destination: u16) -> Result<Pol, AllocError>
    requires switch { 1 ≤ switch }
    requires destination { 1 ≤ destination }
    ensures { IfOk result (λ p. term_of p ≡ hop switch destination) }
{
    let items = Vec::from_array(
        alloc,
        [
            test(Field::Sw, switch),
            test(Field::EthDst, destination),
            assign(Field::Pt, exit(switch, destination)),
        ],
    )?;
    Ok(Pol::Seq(Pols { items }))
}

// The port of a switch towards a destination: 3 to its own hosts, 2 up the line, 1 down.
fn exit(switch: u16, destination: u16) -> u16
    ensures port { result ≡ exit switch destination }
    ensures low { 1 ≤ result }
    ensures high { result ≤ 3 }
{
    if destination == switch {
        3
    } else if switch < destination {
        2
    } else {
        1
    }
}

ghost use Rattle.nk_syntax.specs.Terms.{Assign, Filter, Test};

fn test(field: Field, number: u16) -> Pol
    requires { IsLiteralOf field number }
    ensures { term_of result ≡ Filter (Test field number) }
{
    Pol::Filter(Pred::Test(literal(field, number)))
}

fn assign(field: Field, number: u16) -> Pol
    requires { IsLiteralOf field number }
    ensures { term_of result ≡ Assign field number }
{
    Pol::Assign(literal(field, number))
}

// The literal of a number in its field's range.
fn literal(field: Field, number: u16) -> Lit
    requires { IsLiteralOf field number }
    ensures field { lit_field result ≡ field }
    ensures value { lit_value result ≡ number }
{
    match Lit::new(field, u64::from(number)) {
        Some(lit) => lit,
        None => unreachable!(),
    }
}
