//! The one lock of a run.
//!
//! Layer: runs; public. Called by fleet_workers.
ghost use Rattle.std.specs.Prelude.{◌≡◌, ◌<◌, ◌%◌, None};
ghost use Rattle.world_journal.specs.Calls.{IsWorker, place_of};
ghost use Rattle.world_journal.specs.Journals.{switches};

use crate::ahead::StepsAhead;
use crate::asks::{close_of, given_of, lost_of, shut_of, told_of};
use crate::bell::Bell;
use crate::name::RunName;
use crate::poster::Poster;
use crate::seat::Seat;
use crate::watched::WatchedRun;
use outside_net::Link;
use std::alloc::{AllocError, Global};
use std::sync::{Arc, Mutex, Wait};
use worker_desk::{Desk, IdleTask, TellResult, WorkerTask};

mod making;
mod moves;
mod progress;
mod steps;
mod waiting;

use progress::{goes_on, is_idle, is_out, progress_of};

/// A run beside its pen under their one lock, as its workers share them. A call locks once, or not at all if the desk
/// made the worker's step ahead. What it answers under the lock is stated of one function: for `give` that is
/// `given_of`, and so on (`asks`, `asked_moves`). A worker that is told there is nothing to do waits until its bell
/// rings: the caller's is the first, then come those of the sessions, and then those of the switches.
pub struct RunDesk<R, L: RunName, P: Poster, E: Link> {
    rt: R,
    alloc: Global,
    run: Arc<Mutex<Option<WatchedRun<L, P, E>>>>,
    bells: Arc<Vec<Bell>>,
    ahead: StepsAhead,
}

impl<R: Drop, L: RunName, P: Poster, E: Link> Drop for RunDesk<R, L, P, E> {
    fn drop(self) {
        let RunDesk {
            rt: _rt,
            alloc: _alloc,
            run: _run,
            bells: _bells,
            ahead: _ahead,
        } = self;
    }
}

impl<R: Wait + Drop, L: RunName, P: Poster, E: Link> Desk for RunDesk<R, L, P, E> {
    type Seat = Seat<L>;

    type End = E;

    ghost seated = { λ s. IsWorker (switches L.start) s.worker × (s.share.parts ≡ 1) };

    ghost place = { λ s. place_of (switches L.start) s.worker };

    ghost place_of = { λ name. name % switches L.start };

    ghost given = { λ s. None };

    ghost told = { λ s. None };

    ghost notices = { λ s. None };

    ghost kept = { λ s. None };

    fn give(&self, seat: &mut Seat<L>) -> Result<WorkerTask<E>, AllocError> {
        let next = self.ahead.next(seat);
        if !matches!(next, Some(WorkerTask::Out { .. })) {
            self.ring_owed(seat);
        }
        if let Some(given) = next {
            if is_idle(&given) {
                self.wait(seat);
            }
            return Ok(given);
        }
        self.silence(seat);
        let mut guard = self.lock();
        let given = given_of(&mut *guard, self.alloc, seat);
        match &given {
            Ok(WorkerTask::Nothing { made: None }) => {
                drop(guard);
                self.wait(seat);
            }
            Ok(given) if goes_on(given) => {
                let gave = self.go_ahead(&mut *guard, seat);
                drop(guard);
                if gave || is_out(given) {
                    self.owe(seat);
                }
            }
            Ok(WorkerTask::Stop) => {
                drop(guard);
                self.ring(seat);
            }
            _ => drop(guard),
        }
        given
    }

    fn tell(&self, seat: &mut Seat<L>, bytes: &[u8], end: E, k: u64) -> TellResult<E> {
        self.ring_owed(seat);
        self.silence(seat);
        let mut guard = self.lock();
        let before = progress_of(&guard);
        let told = told_of(&mut *guard, self.alloc, seat, bytes, end, k);
        let gave = matches!(told, TellResult::Back { made: Some(_), .. })
            && self.go_ahead(&mut *guard, seat);
        let after = progress_of(&guard);
        drop(guard);
        if gave {
            self.owe(seat);
        }
        if !matches!(told, TellResult::Back { .. }) {
            self.wake_all();
        } else if before != after {
            self.wake_after(after);
        }
        told
    }

    fn lost(&self, seat: &mut Seat<L>, end: E) -> TellResult<E> {
        self.ahead.clear();
        let told = lost_of(&mut *self.lock(), self.alloc, seat, end);
        self.wake_all();
        told
    }

    fn shut(&self, seat: &mut Seat<L>) -> IdleTask<E> {
        self.ahead.clear();
        self.ring_owed(seat);
        self.silence(seat);
        let shut = shut_of(&mut *self.lock(), seat);
        if matches!(shut, IdleTask::Nothing) {
            self.wait(seat);
        }
        shut
    }

    fn close(&self, _seat: &mut Seat<L>) {
        self.close_all();
    }
}

impl<R: Wait + Drop, L: RunName, P: Poster, E: Link> RunDesk<R, L, P, E> {
    /// The runtime that its calls wait by.
    pub fn runtime(&self) -> &R {
        &self.rt
    }

    /// The allocator of its calls.
    pub fn alloc(&self) -> Global {
        self.alloc
    }

    /// Makes every worker stop.
    pub fn close_all(&self) {
        close_of(&mut *self.lock());
        self.wake_all();
    }
}
