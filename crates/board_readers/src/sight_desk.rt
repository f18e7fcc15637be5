//! Where a worker lays what it saw.
//!
//! Layer: runs; public. Called by `watcher` here, and by fleet_workers.
use crate::ending::Ending;
use crate::sights::Sights;
use status_board::BoardName;
use std::alloc::{AllocError, Global};
use std::sync::{Arc, Mutex, Wait};
use std::thread;
use std::time::{Clock, Duration};

/// Where the one worker that reads the board of `J` lays what it saw, for the caller to take.
#[derive(Drop)]
pub struct SightDesk<R, J: BoardName> {
    ending: Ending<R>,
    alloc: Global,
    laid: Arc<Mutex<Option<Result<Sights<J>, AllocError>>>>,
}

impl<R: Wait + Clock + Drop, J: BoardName> SightDesk<R, J> {
    /// A desk at which nothing lies.
    pub fn new(alloc: Global, ending: Ending<R>) -> Result<SightDesk<R, J>, AllocError> {
        Ok(SightDesk {
            ending,
            alloc,
            laid: Arc::new(alloc, Mutex::new(None))?,
        })
    }

    /// The same desk, for the worker.
    pub fn again(&self) -> Result<SightDesk<R, J>, AllocError>
    where
        R: Clone,
    {
        Ok(SightDesk {
            ending: self.ending.again()?,
            alloc: self.alloc,
            laid: Arc::try_clone(&self.laid)?,
        })
    }

    /// The allocator of its calls.
    pub fn alloc(&self) -> Global {
        self.alloc
    }

    /// Pauses for this time, or until the run is over: whether it is over.
    pub fn pause(&self, time: Duration) -> bool {
        self.ending.pause(time)
    }

    /// Lays down what was seen, or that memory ran out.
    pub fn lay(&self, sights: Result<Sights<J>, AllocError>) {
        *self.laid.lock(self.ending.runtime()) = Some(sights);
    }

    /// Waits until it was laid down, and takes it.
    pub fn take(&self) -> Result<Sights<J>, AllocError> {
        let rt = self.ending.runtime();
        for _ in rt.forever() {
            let laid = self.laid.lock(rt).take();
            match laid {
                Some(sights) => return sights,
                None => thread::yield_now(),
            }
        }
        unreachable!()
    }
}
