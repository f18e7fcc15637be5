//! The names of diagrams in a store: one for each answer.
//!
//! Layer: tests; private. Its tests are run by `rt test`.
use crate::made::{goes_to, lit};
use fdd_nodes::{Fdd, are_few, are_few_behind};
use fdd_ops::{assign, choice, test, union};
use fdd_store::Store;
use nk_values::Field;
use std::alloc::Global;
use std::test::Fail;

#[test]
fn equal_tests_have_one_name(rt: HostRuntime) -> Result<(), Fail> {
    let mut store = Store::new(rt.alloc());
    let first = store.test(rt.alloc(), lit(Field::Pt, 1)?)?;
    let again = store.test(rt.alloc(), lit(Field::Pt, 1)?)?;
    let other = store.test(rt.alloc(), lit(Field::Pt, 2)?)?;
    assert!(rt; first == again);
    assert!(rt; first != other);
    assert!(rt; store.holds(first) && store.holds(other));
    Ok(())
}

// Whether two diagrams have one name in a store.
fn are_one(alloc: Global, a: &Fdd, b: &Fdd) -> Result<bool, Fail> {
    let mut store = Store::new(alloc);
    let first = store.intern(alloc, a)?;
    let second = store.intern(alloc, b)?;
    Ok(first == second)
}

#[test]
fn an_assignment_makes_its_test_idle(rt: HostRuntime) -> Result<(), Fail> {
    let alloc = rt.alloc();
    let asked = test(alloc, lit(Field::EthDst, 5)?)?;
    let set = assign(alloc, lit(Field::EthDst, 5)?)?;
    if !are_few(alloc, &asked, &set)? {
        return Err("too many values".into());
    }
    let both = union(alloc, &asked, &set)?;
    assert!(rt; are_one(alloc, &both, &set)?);
    assert!(rt; !are_one(alloc, &asked, &set)?);
    Ok(())
}

// Where a packet is at a port, it goes to port 7, and else what a diagram says.
fn to_seven_at(alloc: Global, pt: u64, otherwise: Fdd) -> Result<Fdd, Fail> {
    let here = lit(Field::Pt, pt)?;
    let seven = goes_to(alloc, 7)?;
    if !are_few_behind(alloc, &here, &seven, &otherwise)? || !otherwise.normal() {
        return Err("too many values".into());
    }
    Ok(choice(alloc, here, &seven, otherwise)?)
}

// Where a packet is at port 2, it goes to port 8, and else to port 7.
fn eight_at_two(alloc: Global) -> Result<Fdd, Fail> {
    let here = lit(Field::Pt, 2)?;
    let (eight, seven) = (goes_to(alloc, 8)?, goes_to(alloc, 7)?);
    if !are_few_behind(alloc, &here, &eight, &seven)? || !seven.normal() {
        return Err("too many values".into());
    }
    Ok(choice(alloc, here, &eight, seven)?)
}

#[test]
fn further_tests_of_the_field_are_passed(rt: HostRuntime) -> Result<(), Fail> {
    let alloc = rt.alloc();
    let behind = eight_at_two(alloc)?;
    let before = to_seven_at(alloc, 1, eight_at_two(alloc)?)?;
    assert!(rt; are_one(alloc, &before, &behind)?);
    let at_two = to_seven_at(alloc, 2, eight_at_two(alloc)?)?;
    assert!(rt; !are_one(alloc, &at_two, &behind)?);
    Ok(())
}
