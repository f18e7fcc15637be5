//! The threads of a run, one by one.
//!
//! Layer: runs; private. Called by `fleet`.
ghost use Rattle.std.specs.Prelude.{◌≡◌, ◌≢◌, ◌<◌, ◌≤◌, ◌+◌, ◌^◌, IfOk, IfErr, IsOk, Err, true};
ghost use Rattle.outside_io.specs.Causes.{Rose};
ghost use Rattle.fleet_workers.specs.Pairs.{IsPair, is_fresh};
ghost use Rattle.world_journal.specs.Calls.{IsWorker, place_of, role_of};
ghost use Rattle.world_journal.specs.Journals.{switches};
ghost use Rattle.world_journal.specs.Makers.{IsTraffic};

use super::Crew;
use crate::traffic::Traffic;
use crate::worker::Worker;
use outside_net::{Job, Link, Spawner, StartError, StartFault};
use std::sync::{Arc, Wait};
use worker_desk::Gate;
use world_journal::{Poster, Role, RunError, RunFault, RunName, Seat, Side};

impl<
    'a,
    R: Wait + Clone + Drop + Send + 'static,
    L: RunName + Send + Sync + 'static,
    P: Poster + Send + 'static,
    E: Link + Send + 'static,
    G: Gate + Send + Sync + 'static,
> Crew<'a, R, L, P, E, G> {
    // Starts a session and its switch.
    pub(super) fn start_pair<T: Spawner>(
        &self,
        seat: &mut Seat<L>,
        count: usize,
        place: usize,
        pair: (E, E),
        threads: &mut T,
    ) -> Result<(), RunError>
        requires parts { 3 ≤ seat.old.share.parts }
        requires place { (count ≡ switches L.start) × (place < count) × (count < 2 ^ 32) }
        requires pair { IsPair E.named E.received place pair }
        ensures parts { IsOk result → seat.new.share.parts + 2 ≡ seat.old.share.parts }
        ensures worker { seat.new.worker ≡ seat.old.worker }
        ensures later { T.faults threads.old ≤ T.faults threads.new }
        ensures no_thread { result ≡ Err (RunError.Fault RunFault.NoThread) →
            Rose (T.faults threads.old) (T.faults threads.new) }
        ensures no_net { result ≢ Err (RunError.Fault RunFault.NetFault) }
    {
        let (here, there) = pair;
        let session = Role::At(Side::Controller, place);
        let session = self.worker(seat, place + 1, session, here)?;
        start_one(threads, session)?;
        let switch = Role::At(Side::Switch, place);
        let switch = self.worker(seat, count + place + 1, switch, there)?;
        start_one(threads, switch)
    }

    // The worker of this number, with a part of the seat.
    pub(super) fn worker(
        &self,
        seat: &mut Seat<L>,
        worker: usize,
        role: Role,
        end: E,
    ) -> Result<Worker<R, L, P, E, G>, RunError>
        requires parts { 2 ≤ seat.old.share.parts }
        requires worker { IsWorker (switches L.start) worker }
        requires does { role ≡ role_of (switches L.start) worker }
        requires named { E.named end ≡ place_of (switches L.start) worker }
        requires fresh { is_fresh (E.received end) ≡ true }
        ensures parts { IfOk result (λ _. seat.new.share.parts + 1 ≡ seat.old.share.parts) }
        ensures worker { seat.new.worker ≡ seat.old.worker }
        ensures memory { IfErr result (λ f. f ≡ RunError.Memory) }
    {
        let desk = self.desk.again()?;
        let gate = Arc::try_clone(self.gate)?;
        Ok(Worker::new(desk, seat.split_off(worker, role), end, gate))
    }

    // The worker of this number that brings lines in, with a part of the seat.
    pub(super) fn traffic(
        &self,
        seat: &mut Seat<L>,
        worker: usize,
        first: usize,
    ) -> Result<Traffic<R, L, P, E, G>, RunError>
        requires parts { 2 ≤ seat.old.share.parts }
        requires worker { IsTraffic (switches L.start) worker }
        ensures parts { IfOk result (λ _. seat.new.share.parts + 1 ≡ seat.old.share.parts) }
        ensures worker { seat.new.worker ≡ seat.old.worker }
        ensures memory { IfErr result (λ f. f ≡ RunError.Memory) }
    {
        let desk = self.desk.again()?;
        let gate = Arc::try_clone(self.gate)?;
        Ok(Traffic::new(desk, seat.split_off(worker, Role::Traffic), first, gate))
    }
}

// Starts a job.
pub(crate) fn start_one<T: Spawner, J: Job>(threads: &mut T, job: J) -> Result<(), RunError>
    ensures later { T.faults threads.old ≤ T.faults threads.new }
    ensures no_thread { result ≡ Err (RunError.Fault RunFault.NoThread) →
        Rose (T.faults threads.old) (T.faults threads.new) }
    ensures no_net { result ≢ Err (RunError.Fault RunFault.NetFault) }
{
    match threads.start(job) {
        Ok(()) => Ok(()),
        Err(StartError::Fault(StartFault::NoThread)) => Err(RunError::Fault(RunFault::NoThread)),
        Err(StartError::Memory) => Err(RunError::Memory),
    }
}
