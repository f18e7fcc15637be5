//! Runs over links that fail at random.
//!
//! Layer: tests; private. Called by the root of the crate.
use crate::calls::{Failures, plain, run};
use crate::returns::{document, is_done};
use outside_net::Trouble;
use std::alloc::{AllocError, Global};
use std::sync::Wait;
use std::thread::Threads;
use std::time::Clock;

// Numbers that look random: the next one after this one.
fn next_number(number: u64) -> u64 {
    number
        .wrapping_mul(6_364_136_223_846_793_005)
        .wrapping_add(1_442_695_040_888_963_407)
}

// Runs over links that fail at random, up to six calls a run, one after another.
#[derive(Drop)]
struct Runs {
    number: u64,
    case: usize,
}

impl Runs {
    // Before the first one.
    const fn new() -> Runs {
        Runs { number: 1, case: 0 }
    }

    // What fails in the next one.
    fn failures(&mut self, alloc: Global) -> Result<Failures, AllocError> {
        let mut failures = Failures::nothing(alloc);
        for _ in 0..self.case % 7 {
            self.number = next_number(self.number);
            failures
                .links
                .push(Trouble::Call(1 + (self.number >> 33) % 260))?;
        }
        self.case = self.case.wrapping_add(1);
        Ok(failures)
    }
}

/// So many runs over links that fail at random. Each is done, and its events are a schedule of the document with the
/// same report.
pub fn random<
    R: Wait + Clock + Threads + AllocGlobal + Copy + Clone + Drop + Send + Sync + 'static,
>(rt: R, count: usize) -> Result<Option<usize>, AllocError> {
    let alloc = rt.alloc();
    let document = document(alloc, 1_000)?;
    let mut runs = Runs::new();
    for case in 0..count {
        let outcome = run(rt, alloc, &document, runs.failures(alloc)?)?;
        if !is_done(alloc, &outcome)? || !replays(alloc, &document, &outcome.text)? {
            return Ok(Some(case));
        }
    }
    Ok(None)
}

/// The document of such runs, and then the report of each after a line `run`, for others to judge.
pub fn reports<
    R: Wait + Clock + Threads + AllocGlobal + Copy + Clone + Drop + Send + Sync + 'static,
>(rt: R, count: usize) -> Result<String, AllocError> {
    let alloc = rt.alloc();
    let document = document(alloc, 1_000)?;
    let mut text = document.to_string(alloc)?;
    let mut runs = Runs::new();
    for _ in 0..count {
        let outcome = run(rt, alloc, &document, runs.failures(alloc)?)?;
        text.push_str("run\n")?;
        text.push_str(&outcome.text)?;
    }
    Ok(text)
}

// Whether the events of a report, as a schedule of its document, lead to the same report.
fn replays(alloc: Global, document: &str, report: &str) -> Result<bool, AllocError> {
    let mut schedule = document.to_string(alloc)?;
    schedule.push_str("schedule\n")?;
    for event in report.lines().filter_map(|line| line.strip_prefix("e ")) {
        schedule.push_str(if event.starts_with("arrive ") {
            "arrive 1"
        } else {
            event
        })?;
        schedule.push_str("\n")?;
    }
    schedule.push_str("end\n")?;
    let again = plain(alloc, "simulate", &schedule)?;
    Ok(again.text.as_str() == report)
}
