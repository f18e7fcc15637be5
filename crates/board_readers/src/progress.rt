//! The worker that tells how far a run is while it goes on.
//!
//! Layer: runs; public. Called by drive_workers and fleet_workers.
use crate::ending::Ending;
use crate::watcher::is_last;
use outside_net::Job;
use status_board::{BoardName, Eye, Sighting};
use std::sync::{Arc, Wait};
use std::time::{Clock, Duration};
use worker_desk::OpenGate;

// The milliseconds between two reads.
const EVERY: u64 = 100;

/// Who is told how far a run is while it goes on. What it does with it is no part of any answer.
pub trait Onlooker {
    /// Whether it wants to be told.
    fn looks_on(&self) -> bool {
        false
    }

    /// The updates are in another phase than they were when it was told last, or have halted.
    fn told(&self, _seen: Sighting) {}
}

impl Onlooker for OpenGate {}

/// A worker that reads a board until a read is halted, or idle under the last policy, or the run is over, and tells an
/// onlooker each phase that it finds, and a halt.
#[derive(Drop)]
pub struct Progress<R: Wait + Clock + Drop, J: BoardName, G: Onlooker + Drop> {
    ending: Ending<R>,
    eye: Eye<J>,
    last: usize,
    onlooker: Arc<G>,
}

impl<R: Wait + Clock + Drop, J: BoardName, G: Onlooker + Drop> Progress<R, J, G> {
    /// The worker with this eye. `last` is the number of the last policy.
    pub fn new(ending: Ending<R>, eye: Eye<J>, last: usize, onlooker: Arc<G>) -> Progress<R, J, G> {
        Progress {
            ending,
            eye,
            last,
            onlooker,
        }
    }
}

// Tells the onlooker each phase.
fn follow<R: Wait + Clock + Drop, J: BoardName, G: Onlooker>(
    ending: &Ending<R>,
    eye: &mut Eye<J>,
    last: usize,
    onlooker: &G,
) {
    let mut told = None;
    let mut is_over = false;
    for _ in ending.runtime().forever() {
        let seen = eye.read();
        let stand = (seen.phase, seen.halted);
        if told != Some(stand) {
            onlooker.told(seen);
            told = Some(stand);
        }
        if is_over || is_last(seen, last) {
            return;
        }
        is_over = ending.pause(Duration::from_millis(EVERY));
    }
    unreachable!()
}

impl<
    R: Wait + Clock + Drop + Send + 'static,
    J: BoardName + Send + Sync + 'static,
    G: Onlooker + Drop + Send + Sync + 'static,
> Job for Progress<R, J, G> {
    fn run(self) {
        let Progress {
            ending,
            eye,
            last,
            onlooker,
        } = self;
        let mut eye = eye;
        follow(&ending, &mut eye, last, &*onlooker);
    }
}
