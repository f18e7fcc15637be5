//! Paths of diagrams, and whether a well-shaped packet is on each.
//!
//! A path is a sequence of tests: `f=n` for a test that holds, and `not f=n` for one that does not.
//!
//! Layer: tests; private. Called by the root of the crate.
use fdd_differ::path_packet;
use fdd_nodes::{Path, is_few_on};
use netkat_parser::{ParseError, parse_policy};
use nk_syntax::{Pol, Pred};
use std::alloc::{AllocError, Global};

/// What is told of a path.
pub fn answer(alloc: Global, line: &str) -> Result<&'static str, AllocError> {
    let path = path_of(alloc, line)?;
    if !is_few_on(alloc, &path)? {
        return Ok("too many tests");
    }
    match path_packet(&path) {
        Some(_) => Ok("a packet"),
        None => Ok("no packet"),
    }
}

fn path_of(alloc: Global, line: &str) -> Result<Path, AllocError> {
    let mut path = Path::new(alloc);
    match parse_policy(alloc, line.as_bytes()) {
        Ok(Pol::Seq(pols)) => {
            for pol in &pols.items {
                add(&mut path, pol)?;
            }
        }
        Ok(pol) => add(&mut path, &pol)?,
        Err(ParseError::Fault(_)) => {}
        Err(ParseError::Memory) => return Err(AllocError),
    }
    Ok(path)
}

// Adds a test to a path, in its own list.
fn add(path: &mut Path, pol: &Pol) -> Result<(), AllocError> {
    match pol {
        Pol::Filter(Pred::Test(l)) => path.push_true(l),
        Pol::Filter(Pred::Not(pred)) => {
            let pred: &Pred = pred;
            match pred {
                Pred::Test(l) => path.push_false(l),
                _ => Ok(()),
            }
        }
        _ => Ok(()),
    }
}
