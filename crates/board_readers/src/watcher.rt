//! The worker that reads a board.
//!
//! Layer: runs; public. Called by `progress` here, and by fleet_workers.
use crate::sight_desk::SightDesk;
use crate::sights::Sights;
use outside_net::Job;
use status_board::{BoardName, Eye, Sighting};
use std::alloc::AllocError;
use std::sync::Wait;
use std::time::{Clock, Duration};
use update_coordinator::Phase;

// How often it reads at most.
const READS: u64 = 1000;

// By how many microseconds each pause is longer than the one before.
const LONGER: u64 = 10;

/// A worker that reads a board until a read is halted, or idle under the last policy, or the run is over. It reads at
/// most 1,000 times, with pauses that grow: many reads fall into the first milliseconds, and the last into the fifth
/// second.
#[derive(Drop)]
pub struct Watcher<R: Wait + Clock + Drop, J: BoardName> {
    desk: SightDesk<R, J>,
    eye: Eye<J>,
    last: usize,
}

impl<R: Wait + Clock + Drop, J: BoardName> Watcher<R, J> {
    /// The worker with this eye, which lays what it saw at this desk. `last` is the number of the last policy.
    pub fn new(desk: SightDesk<R, J>, eye: Eye<J>, last: usize) -> Watcher<R, J> {
        Watcher { desk, eye, last }
    }
}

// Reads a board as a watcher does.
fn watch<R: Wait + Clock + Drop, J: BoardName>(
    desk: &SightDesk<R, J>,
    eye: Eye<J>,
    last: usize,
) -> Result<Sights<J>, AllocError> {
    let mut sights = Sights::new(desk.alloc(), eye);
    for read in 0..READS {
        let seen = sights.look()?;
        if is_last(seen, last) || desk.pause(Duration::from_micros(LONGER * read)) {
            break;
        }
    }
    Ok(sights)
}

// Whether nothing new is to be seen after this: the updates have halted, or the last policy handles all packets.
pub(crate) fn is_last(seen: Sighting, last: usize) -> bool {
    seen.halted || seen.phase == Phase::Idle(last)
}

impl<R: Wait + Clock + Drop + Send + 'static, J: BoardName + Send + Sync + 'static> Job
    for Watcher<R, J> {
    fn run(self) {
        let Watcher { desk, eye, last } = self;
        desk.lay(watch(&desk, eye, last));
    }
}
