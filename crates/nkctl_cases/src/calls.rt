//! Calls of the program over sources, sinks and links in memory.
//!
//! Layer: tests; private. Called by many modules.
use crate::holding::HoldGate;
use controller_program::{Status, nkctl, nkctl_plain};
use outside_io::{MemorySink, MemorySource};
use outside_net::{MemoryNet, MemoryReporter, RefusingSpawner, ThreadSpawner, Trouble};
use std::alloc::{AllocError, Global};
use std::str;
use std::sync::{Arc, Wait};
use std::thread::Threads;
use std::time::Clock;
use worker_desk::Host;

/// How a call ended, and what it wrote.
#[derive(Drop)]
pub struct Outcome {
    pub status: Status,
    pub text: String,
}

/// How many bytes a read or a write moves at most, and what is to fail. Reads, writes, pairs of ends and starts of
/// threads go by their numbers from 1, so that 0 is none. Messages on links go by what becomes of them.
#[derive(Drop)]
pub struct Failures {
    pub piece: usize,
    pub reads: Vec<u64>,
    pub writes: Vec<u64>,
    pub pairs: Vec<u64>,
    pub threads: Vec<u64>,
    pub links: Vec<Trouble>,
}

impl Failures {
    /// Nothing is to fail.
    pub fn nothing(alloc: Global) -> Failures {
        Failures {
            piece: usize::MAX,
            reads: Vec::new(alloc),
            writes: Vec::new(alloc),
            pairs: Vec::new(alloc),
            threads: Vec::new(alloc),
            links: Vec::new(alloc),
        }
    }
}

/// The words of a command.
pub fn words(alloc: Global, command: &str) -> Result<Vec<String>, AllocError> {
    let mut words = Vec::new(alloc);
    words.push("nkctl".to_string(alloc)?)?;
    words.push(command.to_string(alloc)?)?;
    Ok(words)
}

// A source with a document.
fn source_of(
    alloc: Global,
    document: &str,
    piece: usize,
    reads: Vec<u64>,
) -> Result<MemorySource, AllocError> {
    let bytes = document.as_bytes().to_vec(alloc)?;
    Ok(MemorySource::new(bytes, piece, reads))
}

// What a sink got.
fn written(alloc: Global, status: Status, sink: &MemorySink) -> Result<Outcome, AllocError> {
    let text = str::from_utf8(sink.bytes())
        .unwrap_or("no text\n")
        .to_string(alloc)?;
    Ok(Outcome { status, text })
}

/// A call of a command with threads, each of which passes this gate.
pub fn call<R: Wait + Clock + Threads + Copy + Clone + Drop + Send + Sync + 'static>(
    rt: R,
    alloc: Global,
    words: &[String],
    document: &str,
    failures: Failures,
    gate: Arc<HoldGate<R>>,
) -> Result<Outcome, AllocError> {
    let Failures {
        piece,
        reads,
        writes,
        pairs,
        threads,
        links,
    } = failures;
    let mut source = source_of(alloc, document, piece, reads)?;
    let mut sink = MemorySink::new(alloc, piece, writes);
    let mut host = Host {
        rt,
        net: MemoryNet::new(alloc, rt, pairs, links)?,
        threads: RefusingSpawner::new(ThreadSpawner::new(alloc, rt), threads),
        gate,
    };
    let mut reporter = MemoryReporter::new(0, Vec::new(alloc));
    let status = nkctl(
        alloc,
        words,
        &mut source,
        &mut sink,
        &mut host,
        &mut reporter,
    );
    written(alloc, status, &sink)
}

/// A run of a document, in which some calls fail.
pub fn run<R: Wait + Clock + Threads + Copy + Clone + Drop + Send + Sync + 'static>(
    rt: R,
    alloc: Global,
    document: &str,
    failures: Failures,
) -> Result<Outcome, AllocError> {
    let words = words(alloc, "run")?;
    let gate = Arc::new(alloc, HoldGate::new(rt, None))?;
    call(rt, alloc, &words, document, failures, gate)
}

/// A call of a command without threads.
pub fn call_plain(
    alloc: Global,
    words: &[String],
    document: &str,
    failures: Failures,
) -> Result<Outcome, AllocError> {
    let Failures {
        piece,
        reads,
        writes,
        pairs: _pairs,
        threads: _threads,
        links: _links,
    } = failures;
    let mut source = source_of(alloc, document, piece, reads)?;
    let mut sink = MemorySink::new(alloc, piece, writes);
    let status = nkctl_plain(alloc, words, &mut source, &mut sink);
    written(alloc, status, &sink)
}

/// A call of a command without threads, in which nothing fails.
pub fn plain(alloc: Global, command: &str, document: &str) -> Result<Outcome, AllocError> {
    let words = words(alloc, command)?;
    call_plain(alloc, &words, document, Failures::nothing(alloc))
}
