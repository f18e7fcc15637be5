//! The lock of a run, and the bells by which its workers wake one another.
//!
//! Layer: runs; private. Adds calls to `RunDesk`.
use super::RunDesk;
use super::progress::Progress;
use crate::name::RunName;
use crate::poster::Poster;
use crate::seat::Seat;
use crate::watched::WatchedRun;
use outside_net::Link;
use std::hint::spin_loop;
use std::sync::{MutexGuard, Wait};
use std::thread;

// How often a worker looks whether the lock is free before it gives way.
const LOOKS: u32 = 50;

impl<R: Wait + Drop, L: RunName, P: Poster, E: Link> RunDesk<R, L, P, E> {
    // Wakes a worker, if it has a bell.
    pub(super) fn ring_at(&self, worker: usize) {
        if let Some(bell) = self.bells.get(worker) {
            bell.ring(&self.rt);
        }
    }

    // Wakes the worker at the other side of the same switch.
    pub(super) fn ring(&self, seat: &Seat<L>) {
        let switches = self.bells.len() / 2;
        let worker = seat.worker();
        if worker <= switches {
            self.ring_at(worker + switches);
        } else {
            self.ring_at(worker - switches);
        }
    }

    // A message was made for the other side. If steps are made ahead, that side is woken when all of them are sent.
    pub(super) fn owe(&self, seat: &Seat<L>) {
        if self.ahead.most() == 0 {
            self.ring(seat);
        } else {
            self.ahead.owe();
        }
    }

    // Wakes the other side if that is owed to it.
    pub(super) fn ring_owed(&self, seat: &Seat<L>) {
        if self.ahead.take_owed() {
            self.ring(seat);
        }
    }

    // Takes the lock. Steps are short and many workers make them, so a worker that finds it taken looks again soon, and
    // then gives way: to sleep and be woken takes longer than most steps.
    pub(super) fn lock(&self) -> MutexGuard<'_, Option<WatchedRun<L, P, E>>> {
        for _ in self.rt.forever() {
            if let Some(guard) = self.look() {
                return guard;
            }
            thread::yield_now();
        }
        unreachable!()
    }

    // Looks a number of times whether the lock is free, and takes it if it is.
    fn look(&self) -> Option<MutexGuard<'_, Option<WatchedRun<L, P, E>>>> {
        for _ in 0..LOOKS {
            if let Some(guard) = self.run.try_lock() {
                return Some(guard);
            }
            spin_loop();
        }
        None
    }

    // Forgets what woke the worker before. It does so before it takes the lock: what is done after it looked at the run
    // rings again.
    pub(super) fn silence(&self, seat: &Seat<L>) {
        if let Some(bell) = self.bells.get(seat.worker()) {
            bell.silence(&self.rt);
        }
    }

    // Waits until the worker is woken, if it was not since it silenced its bell.
    pub(super) fn wait(&self, seat: &Seat<L>) {
        if let Some(bell) = self.bells.get(seat.worker()) {
            bell.wait(&self.rt);
        }
    }

    // Wakes those for whom something has changed by how far the run is: the sessions and the caller, and all workers if
    // the run goes no further. A session that stops wakes its switch.
    pub(super) fn wake_after(&self, progress: Option<Progress>) {
        match progress {
            Some(Progress { halted: false, .. }) => self.wake_sessions(),
            _ => self.wake_all(),
        }
    }

    // Wakes the caller and the sessions.
    pub(super) fn wake_sessions(&self) {
        for bell in self.bells.iter().take(self.bells.len() / 2 + 1) {
            bell.ring(&self.rt);
        }
    }

    // Wakes all workers.
    pub(super) fn wake_all(&self) {
        for bell in self.bells.iter() {
            bell.ring(&self.rt);
        }
    }
}
