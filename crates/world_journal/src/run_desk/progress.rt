//! How far a run is, as its workers compare it.
//!
//! Layer: runs; private. Called by many modules.
ghost use Rattle.std.specs.Prelude.{◌<◌, ◌↔◌, None, IsTrue};
ghost use Rattle.world_journal.specs.Finishing.{CanFinish};

use crate::name::RunName;
use crate::poster::Poster;
use crate::watched::WatchedRun;
use outside_net::Link;
use update_coordinator::Phase;
use worker_desk::WorkerTask;

// Whether there was nothing to do.
pub(super) fn is_idle<E>(given: &WorkerTask<E>) -> bool {
    matches!(given, WorkerTask::Nothing { made: None })
}

// Whether there is a message to be sent.
pub(super) fn is_out<E>(given: &WorkerTask<E>) -> bool {
    matches!(given, WorkerTask::Out { .. })
}

// Whether a step was made after which the worker goes on without another.
pub(super) fn goes_on<E>(given: &WorkerTask<E>) -> bool {
    matches!(
        given,
        WorkerTask::Out { .. } | WorkerTask::Nothing { made: Some(_) }
    )
}

// What decides for all workers whether there is something to do: the phase, and whether the coordinator has halted.
#[derive(Clone, Copy, Debug, PartialEq, Eq)]
pub(super) struct Progress {
    phase: Phase,
    pub(super) halted: bool,
}

pub(super) fn progress_of<L: RunName, P: Poster, E: Link>(
    run: &Option<WatchedRun<L, P, E>>,
) -> Option<Progress> {
    let watched = run.as_ref()?;
    let coordinator = watched.run.world().coordinator();
    Some(Progress {
        phase: coordinator.phase(),
        halted: coordinator.halt().is_some(),
    })
}

// Whether there is a run, and it is done.
pub(super) fn is_done<L: RunName, P: Poster, E: Link>(run: &Option<WatchedRun<L, P, E>>) -> bool
    ensures { IsTrue result ↔ CanFinish L.all L.lines run.now }
{
    match run {
        None => false,
        Some(there) => there.run.is_done(),
    }
}
