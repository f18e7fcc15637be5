//! Runs over TCP of this machine.
//!
//! Layer: tests; private. Called by the root of the crate.
use crate::call::{call, words};
use crate::outcome::Outcome;
use outside_net::{LineReporter, TcpNet};
use std::alloc::AllocError;
use std::net::{Net as Sockets, TcpListener, TcpStream};
use std::sync::Wait;
use std::thread::Threads;
use std::time::Clock;

/// A run of a document, or a watched one, as the command says.
pub fn run_over_tcp<
    R: Wait
        + Clock
        + Threads
        + Sockets<Stream = TcpStream, Listener = TcpListener>
        + AllocGlobal
        + Copy
        + Clone
        + Drop
        + Send
        + Sync
        + 'static,
>(rt: R, command: &str, document: &str) -> Result<Outcome, AllocError> {
    let words = words(rt.alloc(), command)?;
    let mut reporter = LineReporter::new(rt);
    call(rt, &words, document, TcpNet::new(rt), &mut reporter)
}
