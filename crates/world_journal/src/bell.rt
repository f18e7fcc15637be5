//! The bells by which the workers of a run wake one another.
//!
//! Layer: runs; private. Called by `making` and `run_desk`.
use std::sync::{Condvar, Mutex, Wait};

/// The bell of one worker. A ring is kept until the worker silences the bell, so none is missed by a worker that does
/// not wait yet.
#[derive(Drop)]
pub(crate) struct Bell {
    rung: Mutex<bool>,
    stroke: Condvar,
}

impl Bell {
    /// A silent bell.
    pub(crate) fn new() -> Bell {
        Bell {
            rung: Mutex::new(false),
            stroke: Condvar::new(),
        }
    }

    /// Rings, and wakes the worker if it waits.
    pub(crate) fn ring<R: Wait>(&self, rt: &R) {
        let mut rung = self.rung.lock(rt);
        if !*rung {
            *rung = true;
            drop(rung);
            self.stroke.notify_one();
        }
    }

    /// Forgets what rang before.
    pub(crate) fn silence<R: Wait>(&self, rt: &R) {
        *self.rung.lock(rt) = false;
    }

    /// Waits until it rings, or not at all if it rang since it was silenced. It may end earlier.
    pub(crate) fn wait<R: Wait>(&self, rt: &R) {
        let rung = self.rung.lock(rt);
        if !*rung {
            drop(self.stroke.wait(rt, rung));
        }
    }
}
