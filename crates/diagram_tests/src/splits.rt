//! Diagrams that give no packet twice.
//!
//! Layer: tests; private. Its tests are run by `rt test`.
use crate::made::{goes_to, lit, packet};
use fdd_nodes::{Fdd, are_few};
use fdd_ops::{assign, sequence, split, union};
use nk_values::Field;
use std::alloc::Global;
use std::test::Fail;

// The diagram of `ethDst:=5; pt:=2`.
fn renames(alloc: Global) -> Result<Fdd, Fail> {
    let (name, goes) = (assign(alloc, lit(Field::EthDst, 5)?)?, goes_to(alloc, 2)?);
    if !are_few(alloc, &name, &goes)? {
        return Err("too many values".into());
    }
    Ok(sequence(alloc, &name, &goes)?)
}

// The diagram of `pt:=2 + ethDst:=5; pt:=2`. Its two copies make one packet where ethDst is 5.
fn mirrors(alloc: Global) -> Result<Fdd, Fail> {
    let (goes, renames) = (goes_to(alloc, 2)?, renames(alloc)?);
    if !are_few(alloc, &goes, &renames)? {
        return Err("too many values".into());
    }
    Ok(union(alloc, &goes, &renames)?)
}

#[test]
fn copies_that_coincide_are_split(rt: HostRuntime) -> Result<(), Fail> {
    let alloc = rt.alloc();
    let once = split(alloc, &mirrors(alloc)?)?;
    let (twofold, single) = (packet(1, 9), packet(1, 5));
    assert_eq!(rt; once.answer(alloc, &twofold)?.len(), 2);
    assert_eq!(rt; once.answer(alloc, &single)?.len(), 1);
    Ok(())
}
