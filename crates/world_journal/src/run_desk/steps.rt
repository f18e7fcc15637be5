//! The steps that a worker makes ahead of its calls while it holds the lock.
//!
//! Layer: runs; private. Adds calls to `RunDesk`.
ghost use Rattle.world_journal.specs.Calls.{IsUnmoved, IsWorker};
ghost use Rattle.world_journal.specs.Journals.{switches};

use super::RunDesk;
use super::progress::{goes_on, is_out};
use crate::ahead::WorkQueue;
use crate::asks::more_of;
use crate::name::RunName;
use crate::poster::Poster;
use crate::seat::Seat;
use crate::watched::WatchedRun;
use outside_net::Link;
use std::sync::Wait;

impl<R: Wait + Drop, L: RunName, P: Poster, E: Link> RunDesk<R, L, P, E> {
    // Makes further steps of a worker ahead of its calls, up to one after which it does not go on. Says whether one
    // gave a message.
    pub(super) fn go_ahead(&self, run: &mut Option<WatchedRun<L, P, E>>, seat: &mut Seat<L>) -> bool
        requires { IsWorker (switches L.start) seat.old.worker }
        ensures { IsUnmoved seat.old.worker seat.new.worker seat.old.share.parts seat.new.share.parts }
    {
        let mut queue = self.ahead.queue(self.alloc);
        let gave = self.fill(&mut queue, run, seat);
        self.ahead.lay(queue);
        gave
    }

    // Makes them, and puts what each gave into a queue.
    fn fill(
        &self,
        queue: &mut WorkQueue,
        run: &mut Option<WatchedRun<L, P, E>>,
        seat: &mut Seat<L>,
    ) -> bool
        requires { IsWorker (switches L.start) seat.old.worker }
        ensures { IsUnmoved seat.old.worker seat.new.worker seat.old.share.parts seat.new.share.parts }
    {
        let mut gave = false;
        for _ in 0..self.ahead.most() {
            let Ok(()) = queue.reserve() else {
                return gave;
            };
            let Some(given) = more_of(run, self.alloc, seat) else {
                return gave;
            };
            gave = gave || is_out(&given);
            let goes_on = goes_on(&given);
            queue.push(given);
            if !goes_on {
                return gave;
            }
        }
        gave
    }
}
