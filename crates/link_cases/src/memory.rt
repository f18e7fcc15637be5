//! Drives in memory.
//!
//! Layer: tests; private. Called by the root of the crate.
use crate::call::{call, drive_words};
use crate::case::Case;
use crate::fake::Fake;
use crate::outcome::Outcome;
use crate::wire::LinkWire;
use outside_net::{MemoryNet, MemoryReporter, Spawner, ThreadSpawner};
use std::alloc::{AllocError, Global};
use std::sync::Wait;
use std::thread::Threads;
use std::time::Clock;

/// Drives fake switches in memory, of which the first comes in at this port.
pub fn drive_in_memory<
    R: Wait + Clock + Threads + AllocGlobal + Copy + Clone + Drop + Send + Sync + 'static,
>(rt: R, case: &Case, first: u16) -> Result<Outcome, AllocError> {
    let alloc = rt.alloc();
    let mut net = MemoryNet::new(alloc, rt, Vec::new(alloc), Vec::new(alloc))?;
    let mut fakes = ThreadSpawner::new(alloc, rt);
    start_fakes(alloc, case, first, &mut net, &mut fakes)?;
    let failing = [case.failing].to_vec(alloc)?;
    let mut reporter = MemoryReporter::new(case.after, failing);
    let words = drive_words(alloc, first)?;
    // A switch works until its link is closed: ends that nobody met are closed with their net.
    let outcome = call(rt, &words, &case.document, net, &mut reporter)?;
    fakes.finish();
    Ok(outcome)
}

// Starts a switch at each port that is open.
fn start_fakes<R: Wait + Threads + Copy + Clone + Drop + Send + Sync + 'static>(
    alloc: Global,
    case: &Case,
    first: u16,
    net: &mut MemoryNet<R>,
    fakes: &mut ThreadSpawner<R>,
) -> Result<(), AllocError> {
    let mut port = first;
    let mut place = 0u32;
    for sw in &case.switches {
        if *sw != case.closed {
            let end = net.door(port, place)?;
            let fake = Fake::new(alloc, LinkWire::new(end), *sw, case.twist_of(*sw));
            if fakes.start(fake).is_err() {
                return Err(AllocError);
            }
        }
        port = port.saturating_add(1);
        place = place.saturating_add(1);
    }
    Ok(())
}
