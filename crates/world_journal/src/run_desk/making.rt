//! The desk of a run, made and taken apart.
//!
//! Layer: runs; private. Adds calls to `RunDesk`.
ghost use Rattle.std.specs.Prelude.{◌≡◌, ◌<◌, IfOk, IfErr, length};
ghost use Rattle.watch_laws.specs.Watching.{ArePosts, IsPosted};
ghost use Rattle.world_journal.specs.Arriving.{IsOver};
ghost use Rattle.world_journal.specs.Journals.{events_of};

use super::RunDesk;
use super::progress::is_done;
use crate::ahead::StepsAhead;
use crate::asks::lay_of;
use crate::bell::Bell;
use crate::held::BookedWorld;
use crate::name::RunName;
use crate::poster::Poster;
use crate::run::RunError;
use crate::seat::Seat;
use crate::watched::WatchedRun;
use outside_net::Link;
use std::alloc::{AllocError, Global};
use std::sync::{Arc, Mutex, Wait};
use std::thread;

impl<R: Wait + Drop, L: RunName, P: Poster, E: Link> RunDesk<R, L, P, E> {
    /// Locks a run up. A worker makes at most this number of steps ahead of its calls.
    pub fn new(
        rt: R,
        alloc: Global,
        watched: WatchedRun<L, P, E>,
        most: u32,
    ) -> Result<RunDesk<R, L, P, E>, AllocError> {
        let mut bells = Vec::new(alloc);
        bells.push(Bell::new())?;
        for _ in 0..watched.run.switch_count() {
            bells.push(Bell::new())?;
            bells.push(Bell::new())?;
        }
        Ok(RunDesk {
            rt,
            alloc,
            run: Arc::new(alloc, Mutex::new(Some(watched)))?,
            bells: Arc::new(alloc, bells)?,
            ahead: StepsAhead::new(most),
        })
    }

    /// The same lock, for another worker.
    pub fn again(&self) -> Result<RunDesk<R, L, P, E>, AllocError>
    where
        R: Clone,
    {
        Ok(RunDesk {
            rt: self.rt.clone()?,
            alloc: self.alloc,
            run: Arc::try_clone(&self.run)?,
            bells: Arc::try_clone(&self.bells)?,
            ahead: StepsAhead::new(self.ahead.most()),
        })
    }

    /// Lays a worker's seat back, as its last act.
    pub fn lay(&self, seat: Seat<L>)
        requires { seat.share.parts ≡ 1 }
    {
        lay_of(&mut *self.lock(), seat);
    }

    /// Waits until all seats are back and the run is closed or over, and takes it out.
    pub fn finish(&self) -> Result<(BookedWorld<L, E>, Seat<L>, P), RunError>
        requires all { (L.all ≡ L.parts) × (0 < L.all) }
        ensures parts { IfOk result (λ r. (r.1.worker ≡ 0) × (r.1.share.parts ≡ L.parts)) }
        ensures steps { IfOk result (λ r. r.1.share.amount ≡ length r.0.journal) }
        ensures over { IfOk result (λ r. IsOver L.lines r.0.world) }
        ensures posts { IfOk result (λ r. ArePosts L.start (events_of r.0.journal) (P.posts r.2)) }
        ensures posted { IfOk result (λ r. IsPosted (events_of r.0.journal) (P.posts r.2)) }
        ensures fault { IfErr result (λ f. f ≡ RunError.Memory) }
    {
        for _ in self.rt.forever() {
            let mut guard = self.lock();
            if is_done(&guard) {
                if let Some(watched) = guard.take() {
                    return watched.finish();
                }
            }
            drop(guard);
            thread::yield_now();
        }
        unreachable!()
    }
}
