//! The text of a trace.
//!
//! Layer: tests; private. Its tests are run by `rt test`.
use crate::histories::{history, packet};
use nk_values::{History, Packet};
use packet_tracer::Walk;
use report_text::trace_text;
use std::alloc::{AllocError, Global};
use std::test::Fail;

// Puts a history from port 1 of switch 1 at the end.
fn push_history(
    alloc: Global,
    histories: &mut Vec<History>,
    packets: &[Packet],
) -> Result<(), AllocError> {
    histories.push(history(alloc, packets)?)?;
    Ok(())
}

// One history twice, and a copy in flight.
fn fill(alloc: Global, walk: &mut Walk) -> Result<(), AllocError> {
    push_history(alloc, &mut walk.finished, &[packet((1, 2), 0)])?;
    push_history(alloc, &mut walk.finished, &[packet((1, 10), 0)])?;
    push_history(alloc, &mut walk.finished, &[packet((1, 2), 0)])?;
    let packets = [packet((1, 2), 0), packet((2, 1), 0)];
    push_history(alloc, &mut walk.in_flight, &packets)
}

// A walk that has come nowhere.
fn no_walk(alloc: Global) -> Walk {
    Walk {
        finished: Vec::new(alloc),
        in_flight: Vec::new(alloc),
    }
}

// Of one packet two histories, one of them twice, and a copy in flight; of another none.
fn push_walks(alloc: Global, walks: &mut Vec<Walk>) -> Result<(), AllocError> {
    walks.push(no_walk(alloc))?;
    walks.push(no_walk(alloc))?;
    match walks.first_mut() {
        Some(walk) => fill(alloc, walk),
        None => Ok(()),
    }
}

fn two_walks(alloc: Global) -> Result<Vec<Walk>, AllocError> {
    let mut walks = Vec::new(alloc);
    push_walks(alloc, &mut walks)?;
    Ok(walks)
}

// The walks under two policies, of which the second has none.
fn push_policies(alloc: Global, policies: &mut Vec<Vec<Walk>>) -> Result<(), AllocError> {
    policies.push(two_walks(alloc)?)?;
    policies.push(Vec::new(alloc))?;
    Ok(())
}

// Whether they are told so.
fn tells(alloc: Global, text: &str) -> Result<bool, AllocError> {
    let mut policies = Vec::new(alloc);
    push_policies(alloc, &mut policies)?;
    has_text(alloc, &policies, text)
}

fn has_text(alloc: Global, policies: &[Vec<Walk>], text: &str) -> Result<bool, AllocError> {
    Ok(trace_text(alloc, policies)?.as_str() == text)
}

#[test]
fn a_trace(rt: HostRuntime) -> Result<(), Fail> {
    let text =
        "policy 1\npacket 1\ndone 1:1>1:10\ndone 1:1>1:2\nopen 1:1>1:2>2:1\npacket 2\npolicy 2\n";
    assert!(rt; tells(rt.alloc(), text)?);
    Ok(())
}
