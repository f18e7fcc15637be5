//! Runs in which lost switches return.
//!
//! Layer: tests; private. Called by `random`.
use crate::calls::{Failures, Outcome, run};
use crate::links::line_has_one_policy;
use crate::report::{count_of, line_of};
use controller_program::Status;
use outside_net::Trouble;
use std::alloc::{AllocError, Global};
use std::sync::Wait;
use std::thread::Threads;
use std::time::Clock;

// The head of the document of two switches, its policies and packets; lines between them say what may be lost.
const HEAD: &str = "switch 1 ports 1 2\nswitch 2 ports 1 2\nlink 1:2 2:1\n";

const REST: &str =
    "policy\npt=1; pt:=2\nend\npolicy\npt=1; pt:=2\nend\npolicy\npt=1; pt:=2\nend\npacket 1:1\npacket 1:1\npacket 1:1\npacket 1:1\npacket 1:1\npacket 1:1\npacket 1:1\npacket 1:1\npacket 1:1\npacket 1:1\n";

/// That document, with the number of sessions that may be lost.
pub fn document(alloc: Global, rejoins: u32) -> Result<String, AllocError> {
    format!(in alloc; "{HEAD}rejoins {rejoins}\n{REST}")
}

/// Whether a run ended by itself with all updates done, all packets of one policy each, and every lost switch there
/// again or quiet: no more returns than losses.
pub fn is_done(alloc: Global, outcome: &Outcome) -> Result<bool, AllocError> {
    let text = outcome.text.as_str();
    let ended = outcome.status == Status::Done && line_of(text, "phase ") == "phase idle 3";
    let counted = count_of(text, "e rejoin ") <= count_of(text, "e lost ")
        && count_of(text, "arrival ") == 10;
    Ok(ended && counted && line_has_one_policy(alloc, text)?)
}

/// Each call on a link fails, one a run, until three runs in a row do not come so far. With returns each run is
/// done.
pub fn returns<
    R: Wait + Clock + Threads + AllocGlobal + Copy + Clone + Drop + Send + Sync + 'static,
>(rt: R) -> Result<Option<usize>, AllocError> {
    let alloc = rt.alloc();
    let document = document(alloc, 1_000)?;
    let mut whole = 0u32;
    for call in 1..2_000 {
        let mut failures = Failures::nothing(alloc);
        failures.links.push(Trouble::Call(call))?;
        let outcome = run(rt, alloc, &document, failures)?;
        if !is_done(alloc, &outcome)? {
            return Ok(Some(call as usize));
        }
        whole = if count_of(&outcome.text, "e lost ") == 0 {
            whole.saturating_add(1)
        } else {
            0
        };
        if whole >= 3 {
            return Ok(None);
        }
    }
    Ok(Some(2_000))
}
