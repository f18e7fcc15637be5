//! What a desk asks of the run that lies under its lock: each has the clause of the run's own call, and posts the step
//! that the call made. If the run was taken out, nothing happens and whoever asks is to stop.
//!
//! Layer: runs; private. Called by `making`, `run_desk` and `steps`.
ghost use Rattle.std.specs.Prelude.{◌≡◌, ◌<◌, ◌%◌, ◌⊎◌, [], IfOk, IfSome, IfNone, IsTrue, OnErr, None};
ghost use Rattle.worker_desk.specs.Answers.{CanBeWritten, GivesBack, OnNewEnd, OnShutNewEnd};
ghost use Rattle.worker_desk.specs.Streams.{TellsWhereKnown};
ghost use Rattle.worker_desk.specs.declared.desk.WorkerTask.TheVariants as given;
ghost use Rattle.worker_desk.specs.declared.desk.TellResult.TheVariants as told;
ghost use Rattle.worker_desk.specs.declared.desk.IdleTask.TheVariants as shut;
ghost use Rattle.world_journal.specs.Ahead.{IsWork, MayWork};
ghost use Rattle.world_journal.specs.Asking.{Closes, LaysBack, OnRun};
ghost use Rattle.world_journal.specs.Calls.{RunGives, IsUnmoved, IsWorker, RunLoses, RunsOut, Shuts, RunTells};
ghost use Rattle.world_journal.specs.Calls.{place_of, side_of};
ghost use Rattle.world_journal.specs.Journals.{switches};

use crate::name::RunName;
use crate::poster::Poster;
use crate::seat::Seat;
use crate::watched::{WatchedRun, post_step};
use outside_net::Link;
use std::alloc::{AllocError, Global};
use worker_desk::{IdleTask, TellResult, WorkerTask};

// What a worker is to do next.
pub(crate) fn given_of<L: RunName, P: Poster, E: Link>(
    run: &mut Option<WatchedRun<L, P, E>>,
    alloc: Global,
    seat: &mut Seat<L>,
) -> Result<WorkerTask<E>, AllocError>
    requires seat { IsWorker (switches L.start) seat.old.worker }
    ensures seat { IsUnmoved seat.old.worker seat.new.worker seat.old.share.parts seat.new.share.parts }
    ensures fits { IfOk result CanBeWritten }
    ensures named { IfOk result
        (OnNewEnd (λ e. E.named e % switches L.start ≡ place_of (switches L.start) seat.old.worker)) }
    ensures fresh { IfOk result (OnNewEnd (λ e. IfSome (E.received e) (λ xs. xs ≡ []))) }
    ensures answer { IfOk result
        (λ g. OnRun (λ old new. RunGives seat.old.worker (side_of (switches L.start) seat.old.worker)
        (place_of (switches L.start) seat.old.worker) old new g) (g ≡ given.Stop) run.old run.new) }
    ensures memory { OnErr result
        (OnRun (RunsOut seat.old.worker (side_of (switches L.start) seat.old.worker)
        (place_of (switches L.start) seat.old.worker)) ⊥ run.old run.new) }
{
    match run {
        None => Ok(WorkerTask::Stop),
        Some(there) => {
            let given = there.run.give(alloc, seat);
            post_step(&mut there.run, &mut there.pen);
            given
        }
    }
}

// What a worker is to do once more, if that is neither to stop nor to begin a new session.
pub(crate) fn more_of<L: RunName, P: Poster, E: Link>(
    run: &mut Option<WatchedRun<L, P, E>>,
    alloc: Global,
    seat: &mut Seat<L>,
) -> Option<WorkerTask<E>>
    requires seat { IsWorker (switches L.start) seat.old.worker }
    ensures seat { IsUnmoved seat.old.worker seat.new.worker seat.old.share.parts seat.new.share.parts }
    ensures fits { IfSome result CanBeWritten }
    ensures work { IfSome result IsWork }
    ensures answer { IfSome result
        (λ g. OnRun (λ old new. RunGives seat.old.worker (side_of (switches L.start) seat.old.worker)
        (place_of (switches L.start) seat.old.worker) old new g) (g ≡ given.Stop) run.old run.new) }
    ensures none { IfNone result
        ((run.new ≡ run.old) ⊎ OnRun
        (RunsOut seat.old.worker (side_of (switches L.start) seat.old.worker)
        (place_of (switches L.start) seat.old.worker)) ⊥ run.old run.new) }
{
    if !may_work(run, seat) {
        return None;
    }
    given_of(run, alloc, seat).ok()
}

// Whether there is a run in which a worker is to go on over its end.
fn may_work<L: RunName, P: Poster, E: Link>(
    run: &Option<WatchedRun<L, P, E>>,
    seat: &Seat<L>,
) -> bool
    requires { IsWorker (switches L.start) seat.now.worker }
    ensures { IsTrue result →
        MayWork (side_of (switches L.start) seat.now.worker) (place_of (switches L.start) seat.now.worker) run.now }
{
    let (side, s) = seat.at();
    match run {
        None => false,
        Some(there) => !there.run.stops(s) && !there.run.has_end(side, s),
    }
}

// What comes of bytes that a worker received.
pub(crate) fn told_of<L: RunName, P: Poster, E: Link>(
    run: &mut Option<WatchedRun<L, P, E>>,
    alloc: Global,
    seat: &mut Seat<L>,
    bytes: &[u8],
    end: E,
    k: u64,
) -> TellResult<E>
    requires seat { IsWorker (switches L.start) seat.old.worker }
    requires name { E.named end % switches L.start ≡ place_of (switches L.start) seat.old.worker }
    requires stream { TellsWhereKnown (E.received end) k bytes.now }
    ensures seat { IsUnmoved seat.old.worker seat.new.worker seat.old.share.parts seat.new.share.parts }
    ensures answer { OnRun (λ old new. RunTells (switches L.start) (E.named end) seat.old.worker
        (side_of (switches L.start) seat.old.worker) (place_of (switches L.start) seat.old.worker) bytes.now k end old
        new result) (result ≡ told.Back end None) run.old run.new }
    ensures back { GivesBack end result }
{
    match run {
        None => TellResult::Back { end, made: None },
        Some(there) => {
            let told = there.run.tell(alloc, seat, bytes, end, k);
            post_step(&mut there.run, &mut there.pen);
            told
        }
    }
}

// What comes of an end that failed.
pub(crate) fn lost_of<L: RunName, P: Poster, E: Link>(
    run: &mut Option<WatchedRun<L, P, E>>,
    alloc: Global,
    seat: &mut Seat<L>,
    end: E,
) -> TellResult<E>
    requires seat { IsWorker (switches L.start) seat.old.worker }
    requires name { E.named end % switches L.start ≡ place_of (switches L.start) seat.old.worker }
    requires failed { 0 < E.faults end }
    ensures seat { IsUnmoved seat.old.worker seat.new.worker seat.old.share.parts seat.new.share.parts }
    ensures answer { OnRun (λ old new. RunLoses (switches L.start) (E.named end) seat.old.worker
        (place_of (switches L.start) seat.old.worker) end old new result) (result ≡ told.Back end None) run.old
        run.new }
    ensures back { GivesBack end result }
{
    match run {
        None => TellResult::Back { end, made: None },
        Some(there) => {
            let told = there.run.lost(alloc, seat, end);
            post_step(&mut there.run, &mut there.pen);
            told
        }
    }
}

// What a worker without an open end is to do.
pub(crate) fn shut_of<L: RunName, P: Poster, E: Link>(
    run: &mut Option<WatchedRun<L, P, E>>,
    seat: &Seat<L>,
) -> IdleTask<E>
    requires seat { IsWorker (switches L.start) seat.now.worker }
    ensures named { OnShutNewEnd (λ e. E.named e % switches L.start ≡ place_of (switches L.start) seat.now.worker)
        result }
    ensures fresh { OnShutNewEnd (λ e. IfSome (E.received e) (λ xs. xs ≡ [])) result }
    ensures answer { OnRun (λ old new. Shuts (side_of (switches L.start) seat.now.worker)
        (place_of (switches L.start) seat.now.worker) old new result) (result ≡ shut.Stop) run.old run.new }
{
    match run {
        None => IdleTask::Stop,
        Some(there) => there.run.shut(seat),
    }
}

// Closes it.
pub(crate) fn close_of<L: RunName, P: Poster, E: Link>(run: &mut Option<WatchedRun<L, P, E>>)
    ensures { OnRun Closes (Unit {0}) run.old run.new }
{
    match run {
        None => {}
        Some(there) => there.run.close(),
    }
}

// Lays a seat back. It is dropped if the run was taken out.
pub(crate) fn lay_of<L: RunName, P: Poster, E: Link>(
    run: &mut Option<WatchedRun<L, P, E>>,
    seat: Seat<L>,
)
    requires { seat.share.parts ≡ 1 }
    ensures { OnRun (LaysBack L.all) (Unit {0}) run.old run.new }
{
    match run {
        None => {}
        Some(there) => there.run.lay(seat),
    }
}
