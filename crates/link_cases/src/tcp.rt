//! Drives over TCP of this machine.
//!
//! Layer: tests; private. Called by the root of the crate.
use crate::call::{call, drive_words};
use crate::case::Case;
use crate::fake::Fake;
use crate::outcome::Outcome;
use crate::speaker::Speaker;
use crate::wire::PortWire;
use outside_net::{LineReporter, Spawner, TcpNet, ThreadSpawner};
use std::alloc::{AllocError, Global};
use std::net::{Net as Sockets, TcpListener, TcpStream};
use std::sync::Wait;
use std::thread::Threads;
use std::time::Clock;

// After how many milliseconds a late switch comes.
const LATE: u64 = 300;

// How often a switch that never comes is looked for.
const LOOKS: u32 = 50;

/// Drives fake switches over TCP, of which the first comes in at this port.
pub fn drive_over_tcp<
    R: Wait
        + Clock
        + Threads
        + Sockets<Stream = TcpStream, Listener = TcpListener>
        + AllocGlobal
        + Copy
        + Clone
        + Drop
        + Send
        + Sync
        + 'static,
>(rt: R, case: &Case, first: u16) -> Result<Outcome, AllocError> {
    let alloc = rt.alloc();
    let net = if case.absent > 0 {
        TcpNet::with_looks(rt, LOOKS)
    } else {
        TcpNet::new(rt)
    };
    let mut fakes = ThreadSpawner::new(alloc, rt);
    start_fakes(rt, alloc, case, first, &mut fakes)?;
    let mut reporter = LineReporter::new(rt);
    let words = drive_words(alloc, first)?;
    let outcome = call(rt, &words, &case.document, net, &mut reporter)?;
    drop(reporter);
    fakes.finish();
    Ok(outcome)
}

// Starts the switches that come, and whoever reports.
fn start_fakes<
    R: Wait
        + Clock
        + Threads
        + Sockets<Stream = TcpStream, Listener = TcpListener>
        + Copy
        + Clone
        + Drop
        + Send
        + Sync
        + 'static,
>(
    rt: R,
    alloc: Global,
    case: &Case,
    first: u16,
    fakes: &mut ThreadSpawner<R>,
) -> Result<(), AllocError> {
    let mut port = first;
    for sw in &case.switches {
        let after = if *sw == case.late { LATE } else { 0 };
        let wire = PortWire::new(rt, port, after);
        let fake = Fake::new(alloc, wire, *sw, case.twist_of(*sw));
        if *sw != case.absent && fakes.start(fake).is_err() {
            return Err(AllocError);
        }
        port = port.saturating_add(1);
    }
    let said = case.said.as_bytes().to_vec(alloc)?;
    let speaker = Speaker::new(PortWire::new(rt, port, 0), said, case.leaves);
    match fakes.start(speaker) {
        Ok(()) => Ok(()),
        Err(_) => Err(AllocError),
    }
}
