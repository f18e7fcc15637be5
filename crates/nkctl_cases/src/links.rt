//! Runs of one document in which calls of the outside fail.
//!
//! Layer: tests; private. Called by `holds` and `returns`.
use crate::calls::{Failures, Outcome, run};
use crate::meaning::{Wiring, meanings};
use crate::report::{have_one_policy, line_of, tells_of_loss};
use controller_program::Status;
use outside_net::Trouble;
use std::alloc::{AllocError, Global};
use std::sync::Wait;
use std::thread::Threads;
use std::time::Clock;

/// Two switches in a line with three policies alike and ten packets.
pub const LINE: &str =
    "switch 1 ports 1 2\nswitch 2 ports 1 2\nlink 1:2 2:1\npolicy\npt=1; pt:=2\nend\npolicy\npt=1; pt:=2\nend\npolicy\npt=1; pt:=2\nend\npacket 1:1\npacket 1:1\npacket 1:1\npacket 1:1\npacket 1:1\npacket 1:1\npacket 1:1\npacket 1:1\npacket 1:1\npacket 1:1\n";

// How they are wired, and the policy.
const WIRING: Wiring = Wiring {
    edges: "sw=1; pt=1 + sw=2; pt=2",
    links: "sw=1; pt=2; sw:=2; pt:=1 + sw=2; pt=1; sw:=1; pt:=2",
};

const POLICIES: [&str; 4] = ["drop", "pt=1; pt:=2", "pt=1; pt:=2", "pt=1; pt:=2"];

// Each run of that document makes fewer calls on links.
const MOST_CALLS: u64 = 2_000;

/// Whether each packet that came in, of the two switches in a line, has one policy.
pub fn line_has_one_policy(alloc: Global, report: &str) -> Result<bool, AllocError> {
    let meanings = meanings(alloc, LINE, WIRING, &POLICIES)?;
    have_one_policy(alloc, report, &meanings, &[])
}

// Whether a run ended by itself: it is done, or it lost a session and says which one.
fn has_ended(outcome: &Outcome) -> bool {
    match outcome.status {
        Status::Done => line_of(&outcome.text, "phase ") == "phase idle 3",
        Status::Halted => tells_of_loss(&outcome.text),
        _ => false,
    }
}

/// Each call on a link fails, one a run, until three runs in a row do not come so far.
pub fn links<R: Wait + Clock + Threads + AllocGlobal + Copy + Clone + Drop + Send + Sync + 'static>(
    rt: R,
) -> Result<Option<usize>, AllocError> {
    let alloc = rt.alloc();
    let mut done = 0u32;
    for call in 1..MOST_CALLS {
        let mut failures = Failures::nothing(alloc);
        failures.links.push(Trouble::Call(call))?;
        let outcome = run(rt, alloc, LINE, failures)?;
        if !has_ended(&outcome) || !line_has_one_policy(alloc, &outcome.text)? {
            return Ok(Some(call as usize));
        }
        done = if outcome.status == Status::Done {
            done.saturating_add(1)
        } else {
            0
        };
        if done >= 3 {
            return Ok(None);
        }
    }
    Ok(Some(MOST_CALLS as usize))
}
