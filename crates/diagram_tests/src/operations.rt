//! Choices, what is left at a port, and differences.
//!
//! Layer: tests; private. Its tests are run by `rt test`.
use crate::made::{count, goes_to, lit, moves, packet, sends};
use fdd_differ::difference;
use fdd_nodes::{Fdd, Node, are_few, are_few_behind};
use fdd_ops::{choice, cofactor, zero};
use nk_values::Field;
use std::alloc::Global;
use std::test::Fail;

// Where a packet is at port 1, it goes to the first port, and else to the second.
fn chosen(alloc: Global, yes: u64, no: u64) -> Result<Fdd, Fail> {
    let here = lit(Field::Pt, 1)?;
    let (yes, no) = (goes_to(alloc, yes)?, goes_to(alloc, no)?);
    if !are_few_behind(alloc, &here, &yes, &no)? || !no.normal() {
        return Err("too many values".into());
    }
    Ok(choice(alloc, here, &yes, no)?)
}

#[test]
fn a_choice_tests(rt: HostRuntime) -> Result<(), Fail> {
    let two = chosen(rt.alloc(), 2, 3)?;
    assert!(rt; sends(rt.alloc(), &two, 1, 2)?);
    assert!(rt; sends(rt.alloc(), &two, 9, 3)?);
    assert!(rt; two.normal());
    Ok(())
}

#[test]
fn a_choice_of_the_same_tests_nothing(rt: HostRuntime) -> Result<(), Fail> {
    let alike = chosen(rt.alloc(), 2, 2)?;
    assert!(rt; matches!(alike.root(), Node::Leaf(_)));
    Ok(())
}

// What is left of `pt=1; pt:=2` at a port.
fn left_at(alloc: Global, pt: u64) -> Result<Fdd, Fail> {
    let step = moves(alloc, 1, 2)?;
    Ok(cofactor(alloc, &step, lit(Field::Pt, pt)?)?)
}

#[test]
fn what_is_left_at_a_port(rt: HostRuntime) -> Result<(), Fail> {
    let here = left_at(rt.alloc(), 1)?;
    assert!(rt; sends(rt.alloc(), &here, 9, 2)?);
    let elsewhere = left_at(rt.alloc(), 3)?;
    assert_eq!(rt; count(rt.alloc(), &elsewhere, 1)?, 0);
    Ok(())
}

// The port of a packet that tells two diagrams apart, or 0 where there is none.
fn port_of_difference(alloc: Global, a: &Fdd, b: &Fdd) -> Result<u64, Fail> {
    if !are_few(alloc, a, b)? {
        return Err("too many values".into());
    }
    Ok(difference(a, b).map_or(0, |packet| packet.pt))
}

#[test]
fn differences(rt: HostRuntime) -> Result<(), Fail> {
    let alloc = rt.alloc();
    let step = moves(alloc, 1, 2)?;
    assert_eq!(rt; port_of_difference(alloc, &step, &step)?, 0);
    assert_eq!(rt; port_of_difference(alloc, &step, &zero(alloc))?, 1);
    assert!(rt; step.leaf_of(&packet(2, 9)).copies().is_empty());
    Ok(())
}
