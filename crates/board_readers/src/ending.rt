//! Whether a run is over, as those are told who read its board.
//!
//! Layer: runs; public. Called by `progress` and `sight_desk` here, and by drive_workers and fleet_workers.
use std::alloc::{AllocError, Global};
use std::sync::{Arc, Condvar, CondvarTimeouts, Mutex, Wait};
use std::time::{Clock, Duration};

// What the sharers of an ending share.
#[derive(Drop)]
struct SharedEnd {
    over: Mutex<bool>,
    bell: Condvar,
}

/// Whether a run is over, for those who read its board: the run tells it once, and each reader pauses by it.
#[derive(Drop)]
pub struct Ending<R> {
    rt: R,
    shared: Arc<SharedEnd>,
}

impl<R: Wait + Clock + Drop> Ending<R> {
    /// An ending of which nothing was told yet.
    pub fn new(rt: R, alloc: Global) -> Result<Ending<R>, AllocError> {
        let shared = SharedEnd {
            over: Mutex::new(false),
            bell: Condvar::new(),
        };
        Ok(Ending {
            rt,
            shared: Arc::new(alloc, shared)?,
        })
    }

    /// The same ending, for another reader.
    pub fn again(&self) -> Result<Ending<R>, AllocError>
    where
        R: Clone,
    {
        Ok(Ending {
            rt: self.rt.clone()?,
            shared: Arc::try_clone(&self.shared)?,
        })
    }

    /// The runtime that it waits by.
    pub fn runtime(&self) -> &R {
        &self.rt
    }

    /// Tells all readers that the run is over.
    pub fn tell(&self) {
        *self.shared.over.lock(&self.rt) = true;
        self.shared.bell.notify_all();
    }

    /// Pauses for this time, or until the run is over: whether it is over.
    pub fn pause(&self, time: Duration) -> bool {
        let over = self.shared.over.lock(&self.rt);
        if *over {
            return true;
        }
        let (over, _) = self.shared.bell.wait_timeout(&self.rt, over, time);
        *over
    }
}
