//! Calls of the program.
//!
//! Layer: tests; private. Called by `loopback`, `memory` and `tcp`.
use crate::outcome::{Outcome, outcome_of};
use controller_program::nkctl;
use outside_io::{MemorySink, MemorySource};
use outside_net::{Net, Reporter, ThreadSpawner};
use std::alloc::{AllocError, Global};
use std::sync::{Arc, Wait};
use std::thread::Threads;
use std::time::Clock;
use worker_desk::{Host, OpenGate};

/// The words of a command.
pub fn words(alloc: Global, command: &str) -> Result<Vec<String>, AllocError> {
    let mut words = Vec::new(alloc);
    words.push("nkctl".to_string(alloc)?)?;
    words.push(command.to_string(alloc)?)?;
    Ok(words)
}

/// The words of a drive from this port on.
pub fn drive_words(alloc: Global, first: u16) -> Result<Vec<String>, AllocError> {
    let mut words = words(alloc, "drive")?;
    words.push(format!(in alloc; "{first}")?)?;
    Ok(words)
}

/// A call with a document, over this net, which is gone after it.
pub fn call<
    R: Wait + Clock + Threads + AllocGlobal + Copy + Clone + Drop + Send + Sync + 'static,
    N: Net + Drop,
    Q: Reporter,
>(rt: R, words: &[String], document: &str, net: N, reporter: &mut Q) -> Result<Outcome, AllocError>
where
    N::End: 'static,
    Q::Receipt: Send + 'static,
{
    let alloc = rt.alloc();
    let bytes = document.as_bytes().to_vec(alloc)?;
    let mut source = MemorySource::new(bytes, usize::MAX, Vec::new(alloc));
    let mut sink = MemorySink::new(alloc, usize::MAX, Vec::new(alloc));
    let mut host = Host {
        rt,
        net,
        threads: ThreadSpawner::new(alloc, rt),
        gate: Arc::new(alloc, OpenGate)?,
    };
    let status = nkctl(alloc, words, &mut source, &mut sink, &mut host, reporter);
    outcome_of(alloc, status, &sink)
}
