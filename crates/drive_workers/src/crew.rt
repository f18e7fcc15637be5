//! A drive from its start to its end.
//!
//! Layer: switches outside; public. Called by `closed` and `lookout`.
ghost use Rattle.std.specs.Prelude.{◌≡◌, ◌<◌, vec_len, length, IfOk, IfErr};
ghost use Rattle.drive_journal.specs.Drives.{IsOver};
ghost use Rattle.drive_workers.specs.Ends.{AreEnds, IsEndOf};
ghost use Rattle.drive_workers.specs.Faults.{RunCause, StartsAs};

use crate::caller::steer;
use crate::fault::{DriveError, DriveFault};
use crate::lookout::OpenBoard;
use crate::worker::DriveWorker;
use board_readers::{BoardName, Pen};
use drive_journal::{Drive, DriveDesk, DriveName, DriveState};
use outside_net::{Job, Link, Net, Receipt, Reporter, Spawner, StartError, StartFault};
use std::alloc::Global;
use std::sync::{Arc, Wait};
use std::time::Clock;
use worker_desk::{Gate, Host};

/// Drives switches from a start until it is over: a worker in a thread of its own for each, which talks over its end,
/// and the caller, who begins the updates and takes the reports of drains. The board's pen posts where the drive
/// stands, and its readers are told when it is over.
pub fn drive_fleet<
    L: DriveName + Send + Sync + 'static,
    J: BoardName,
    R: Wait + Clock + Clone + Drop + Send + 'static,
    N: Net,
    T: Spawner,
    G: Gate + Send + Sync + 'static,
    Q: Reporter,
>(
    alloc: Global,
    held: DriveState<L, N::End, Q::Receipt>,
    ends: Vec<N::End>,
    board: &mut OpenBoard<Pen<J, R>, R>,
    host: &mut Host<R, N, T, G>,
    reporter: &mut Q,
) -> Result<DriveState<L, N::End, Q::Receipt>, DriveError>
where
    N::End: 'static,
    Q::Receipt: Send + 'static,
    requires count { vec_len ends ≡ length L.start.peers }
    requires ends { AreEnds N.End.named N.End.received ends.items }
    ensures over { IfOk result (λ h. IsOver h.control) }
    ensures cause { RunCause (T.faults host.old.threads) (T.faults host.new.threads) (Q.faults reporter.old)
        (Q.faults reporter.new) result }
    ensures net { host.new.net ≡ host.old.net }
{
    let drive = Drive::new(alloc, held)?;
    let desk = DriveDesk::new(host.rt.clone()?, alloc, drive)?;
    let crew = Crew {
        desk: &desk,
        gate: &host.gate,
    };
    let done = crew.go(ends, reporter, &mut host.threads, &mut board.pen);
    if done.is_err() {
        desk.close_all();
    }
    board.ending.tell();
    host.threads.finish();
    done?;
    match desk.finish() {
        Some(held) => Ok(held),
        None => Err(DriveError::Memory),
    }
}

// What all workers share.
#[derive(Drop)]
struct Crew<'a, R: Wait + Clock + Drop, L: DriveName, E: Link, Q: Receipt, G: Gate> {
    desk: &'a DriveDesk<R, L, E, Q>,
    gate: &'a Arc<G>,
}

impl<
    'a,
    R: Wait + Clock + Clone + Drop + Send + 'static,
    L: DriveName + Send + Sync + 'static,
    E: Link + Send + 'static,
    Q: Receipt + Send + 'static,
    G: Gate + Send + Sync + 'static,
> Crew<'a, R, L, E, Q, G> {
    // Starts the workers, and steers.
    fn go<P: Reporter<Receipt = Q>, T: Spawner, J: BoardName>(
        &self,
        ends: Vec<E>,
        reporter: &mut P,
        threads: &mut T,
        pen: &mut Pen<J, R>,
    ) -> Result<(), DriveError>
        requires count { vec_len ends ≡ length L.start.peers }
        requires ends { AreEnds E.named E.received ends.items }
        ensures { RunCause (T.faults threads.old) (T.faults threads.new) (P.faults reporter.old)
            (P.faults reporter.new) result }
    {
        self.start_all(ends, threads)?;
        steer(self.desk, reporter, pen)
    }

    // Starts all workers. An end that was not handed out is dropped.
    fn start_all<T: Spawner>(&self, ends: Vec<E>, threads: &mut T) -> Result<(), DriveError>
        requires count { vec_len ends ≡ length L.start.peers }
        requires ends { AreEnds E.named E.received ends.items }
        ensures { StartsAs (T.faults threads.old) (T.faults threads.new) result }
    {
        let mut ends = ends;
        while let Some(end) = ends.pop() {
            let worker = self.worker(ends.len(), end)?;
            start_one(threads, worker)?;
        }
        Ok(())
    }

    // The worker of the switch at a place.
    fn worker(&self, place: usize, end: E) -> Result<DriveWorker<R, L, E, Q, G>, DriveError>
        requires place { place < length L.start.peers }
        requires end { IsEndOf E.named E.received place end }
        ensures memory { IfErr result (λ f. f ≡ DriveError.Memory) }
    {
        let desk = self.desk.again()?;
        let gate = Arc::try_clone(self.gate)?;
        Ok(DriveWorker::new(desk, place, end, gate))
    }
}

// Starts a job.
pub(crate) fn start_one<T: Spawner, J: Job>(threads: &mut T, job: J) -> Result<(), DriveError>
    ensures { StartsAs (T.faults threads.old) (T.faults threads.new) result }
{
    match threads.start(job) {
        Ok(()) => Ok(()),
        Err(StartError::Fault(StartFault::NoThread)) => Err(DriveError::Fault(
            DriveFault::NoThread,
        )),
        Err(StartError::Memory) => Err(DriveError::Memory),
    }
}
