//! What is shown on standard error while a run or a drive goes on.
//!
//! Layer: the program; private. Called by the root of the crate.
use controller_program::{Onlooker, Sighting};
use report_text::put_phase;
use std::alloc::{AllocError, Global};
use std::env::Env;
use std::fmt::Write;
use worker_desk::{Gate, Moment};

// Whether the environment asks for it, by `NKCTL_PROGRESS=1`.
pub(crate) fn is_wanted<R: Env>(rt: &R) -> bool {
    let mut value = [0u8; 2];
    matches!(rt.var("NKCTL_PROGRESS", &mut value), Ok(1)) && value[0] == b'1'
}

/// The gate of the program, which holds nobody. It shows how far the updates are, if that is wanted.
#[derive(Drop)]
pub(crate) struct Console<R> {
    rt: R,
    alloc: Global,
    shows: bool,
}

impl<R> Console<R> {
    pub(crate) fn new(rt: R, alloc: Global, shows: bool) -> Console<R> {
        Console { rt, alloc, shows }
    }
}

impl<R: Drop> Gate for Console<R> {
    fn pass(&self, _worker: usize, _moment: Moment) {}

    fn is_open(&self) -> bool {
        true
    }
}

impl<R: Eprint> Onlooker for Console<R> {
    fn looks_on(&self) -> bool {
        self.shows
    }

    fn told(&self, seen: Sighting) {
        // What cannot be shown is left out: the answer does not have it.
        if let Ok(line) = line_of(self.alloc, seen) {
            let _ = eprintln!(self.rt; "{}", line.as_str());
        }
    }
}

// The phase and the number of events, as `flip 2 1, 340 events`.
fn line_of(alloc: Global, seen: Sighting) -> Result<String, AllocError> {
    let mut line = String::new(alloc);
    // What is seen has no stamps, so a policy that is swept is not named.
    put_phase(&mut line, &[], seen.phase)?;
    let count = seen.count;
    write!(line, ", {count} events")?;
    if seen.halted {
        line.push_str(", halted")?;
    }
    Ok(line)
}
