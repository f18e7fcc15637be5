//! Runs in which one worker is held until another has gone on: no fixed order of the workers passes all of them.
//! Workers 1 and 2 are the sessions, 3 and 4 the switches, 5 brings the first packet in.
//!
//! Layer: tests; private. Called by the root of the crate.
use crate::calls::{Failures, call, words};
use crate::holding::{Hold, HoldGate, Times};
use crate::links::LINE;
use crate::report::{count_of, line_of};
use controller_program::Status;
use std::alloc::{AllocError, Global};
use std::sync::{Arc, Wait};
use std::thread::Threads;
use std::time::Clock;
use worker_desk::StepKind;

fn times(worker: usize, kind: StepKind, times: u32) -> Times {
    Times {
        worker,
        kind,
        times,
    }
}

// The six holds.
fn six() -> [Hold; 6] {
    [
        Hold {
            before: StepKind::Reply,
            after: times(3, StepKind::Reply, 0),
            until: times(2, StepKind::Heard, 3),
        },
        Hold {
            before: StepKind::Reply,
            after: times(4, StepKind::Reply, 0),
            until: times(1, StepKind::Heard, 3),
        },
        Hold {
            before: StepKind::Take,
            after: times(3, StepKind::Take, 2),
            until: times(1, StepKind::Send, 4),
        },
        Hold {
            before: StepKind::Send,
            after: times(1, StepKind::Send, 3),
            until: times(3, StepKind::Take, 3),
        },
        Hold {
            before: StepKind::Arrive,
            after: times(5, StepKind::Arrive, 0),
            until: times(1, StepKind::Heard, 3),
        },
        Hold {
            before: StepKind::Heard,
            after: times(1, StepKind::Heard, 0),
            until: times(5, StepKind::Arrive, 1),
        },
    ]
}

// Whether the run is done with all packets, and the worker that was held went on in time.
fn passes<R: Wait + Clock + Threads + Copy + Clone + Drop + Send + Sync + 'static>(
    rt: R,
    alloc: Global,
    hold: Hold,
) -> Result<bool, AllocError> {
    let words = words(alloc, "run")?;
    let gate = Arc::new(alloc, HoldGate::new(rt, Some(hold)))?;
    let again = Arc::try_clone(&gate)?;
    let outcome = call(rt, alloc, &words, LINE, Failures::nothing(alloc), gate)?;
    let text = outcome.text.as_str();
    let done = outcome.status == Status::Done && line_of(text, "phase ") == "phase idle 3";
    Ok(done && count_of(text, "arrival ") == 10 && again.was_in_time())
}

/// Each of the six holds.
pub fn holds<R: Wait + Clock + Threads + AllocGlobal + Copy + Clone + Drop + Send + Sync + 'static>(
    rt: R,
) -> Result<Option<usize>, AllocError> {
    for (case, hold) in six().into_iter().enumerate() {
        if !passes(rt, rt.alloc(), hold)? {
            return Ok(Some(case));
        }
    }
    Ok(None)
}
