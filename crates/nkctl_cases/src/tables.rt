//! The tables by their names.
//!
//! Layer: tests; private. Called by the root of the crate.
use crate::{holds, links, plain, random, returns};
use std::alloc::{AllocError, Global};
use std::sync::Wait;
use std::thread::Threads;
use std::time::Clock;

/// What comes of a table.
pub fn table<R: Wait + Clock + Threads + AllocGlobal + Copy + Clone + Drop + Send + Sync + 'static>(
    rt: R,
    name: &str,
) -> Result<String, AllocError> {
    let alloc = rt.alloc();
    if let Some(count) = count_in(name, "reports ") {
        return random::reports(rt, count);
    }
    match wrong(rt, name)? {
        None => "as it must be".to_string(alloc),
        Some(case) => told(alloc, case),
    }
}

// The first case of a table that is not as it must be; of a table that is none the case 0.
fn wrong<R: Wait + Clock + Threads + AllocGlobal + Copy + Clone + Drop + Send + Sync + 'static>(
    rt: R,
    name: &str,
) -> Result<Option<usize>, AllocError> {
    match name {
        "links" => links::links(rt),
        "holds" => holds::holds(rt),
        "returns" => returns::returns(rt),
        "reads" => plain::reads(rt.alloc()),
        "writes" => plain::writes(rt.alloc()),
        "events" => plain::events(rt.alloc()),
        _ => match count_in(name, "random ") {
            Some(count) => random::random(rt, count),
            None => Ok(Some(0)),
        },
    }
}

// The number after a word.
fn count_in(name: &str, word: &str) -> Option<usize> {
    name.strip_prefix(word)?.parse::<usize>().ok()
}

// A case that is not as it must be.
fn told(alloc: Global, case: usize) -> Result<String, AllocError> {
    format!(in alloc; "case {case} is not")
}
