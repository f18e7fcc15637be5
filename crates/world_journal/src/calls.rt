//! What a session's or a switch's worker asks of a run: each answer is decided by the state found.
//!
//! Layer: runs; private. Adds calls to `Run`.
ghost use Rattle.std.specs.Prelude.{◌≡◌, ◌<◌, ◌%◌, [], IfOk, IfSome, OnErr, Some};
ghost use Rattle.worker_desk.specs.Answers.{CanBeWritten, GivesBack, OnNewEnd, OnShutNewEnd};
ghost use Rattle.worker_desk.specs.Streams.{TellsWhereKnown};
ghost use Rattle.world_journal.specs.Journals.{switches};
ghost use Rattle.world_journal.specs.Makers.{WorksAt};
ghost use Rattle.world_journal.specs.Runs.{waits};
ghost use Rattle.world_journal.specs.Calls.{RunGives, IsUnmoved, IsWorker, RunLoses, RunsOut, Shuts, RunTells};
ghost use Rattle.world_journal.specs.Calls.{place_of, side_of};

use crate::name::RunName;
use crate::run::Run;
use crate::seat::Seat;
use outside_net::Link;
use std::alloc::{AllocError, Global};
use update_coordinator::Side;
use worker_desk::{IdleTask, TellResult, WorkerTask};

mod receipts;
mod sends;

use receipts::{ReceivedBytes, lose_at, tell_at};
use sends::work_at;

impl<L: RunName, E: Link> Run<L, E> {
    /// What the worker of this seat is to do next: to stop, to begin a new session, to send, to receive, or nothing. A
    /// new session is over the end that is laid out for it. It sends the message that waits, or the one that its next
    /// step puts on its channel. It receives if a message is on its way to it and can be taken. Out of memory a step
    /// may stand, and its message then waits.
    pub fn give(&mut self, alloc: Global, seat: &mut Seat<L>) -> Result<WorkerTask<E>, AllocError>
        requires seat { IsWorker (switches L.start) seat.old.worker }
        ensures seat { IsUnmoved seat.old.worker seat.new.worker seat.old.share.parts seat.new.share.parts }
        ensures fits { IfOk result CanBeWritten }
        ensures named { IfOk result
            (OnNewEnd (λ e. E.named e % switches L.start ≡ place_of (switches L.start) seat.old.worker)) }
        ensures fresh { IfOk result (OnNewEnd (λ e. IfSome (E.received e) (λ xs. xs ≡ []))) }
        ensures answer { IfOk result
            (RunGives seat.old.worker (side_of (switches L.start) seat.old.worker)
            (place_of (switches L.start) seat.old.worker) self.old self.new) }
        ensures memory { OnErr result
            (RunsOut seat.old.worker (side_of (switches L.start) seat.old.worker)
            (place_of (switches L.start) seat.old.worker) self.old self.new) }
    {
        let (side, s) = seat.at();
        give_at(self, alloc, seat, side, s)
    }

    /// Takes the bytes of a message that the worker of this seat received after k others, or those at which the
    /// stream has a fault. If they are the front of its channel it is taken, if that can be; if they are not, and came
    /// next, the session ends and the end is kept. Over an end of an earlier session nothing happens.
    pub fn tell(
        &mut self,
        alloc: Global,
        seat: &mut Seat<L>,
        bytes: &[u8],
        end: E,
        k: u64,
    ) -> TellResult<E>
        requires seat { IsWorker (switches L.start) seat.old.worker }
        requires name { E.named end % switches L.start ≡ place_of (switches L.start) seat.old.worker }
        requires stream { TellsWhereKnown (E.received end) k bytes.now }
        ensures seat { IsUnmoved seat.old.worker seat.new.worker seat.old.share.parts seat.new.share.parts }
        ensures answer { RunTells (switches L.start) (E.named end) seat.old.worker
            (side_of (switches L.start) seat.old.worker) (place_of (switches L.start) seat.old.worker) bytes.now k end
            self.old self.new result }
        ensures back { GivesBack end result }
    {
        let (side, s) = seat.at();
        if self.is_present(s, end.name()) {
            tell_at(self, alloc, seat, side, s, ReceivedBytes { bytes, end, k })
        } else {
            TellResult::Back { end, made: None }
        }
    }

    /// The end of the worker of this seat failed: the session is lost, unless the coordinator has halted or the end is
    /// of an earlier session.
    pub fn lost(&mut self, alloc: Global, seat: &mut Seat<L>, end: E) -> TellResult<E>
        requires seat { IsWorker (switches L.start) seat.old.worker }
        requires name { E.named end % switches L.start ≡ place_of (switches L.start) seat.old.worker }
        requires failed { 0 < E.faults end }
        ensures seat { IsUnmoved seat.old.worker seat.new.worker seat.old.share.parts seat.new.share.parts }
        ensures answer { RunLoses (switches L.start) (E.named end) seat.old.worker
            (place_of (switches L.start) seat.old.worker) end self.old self.new result }
        ensures back { GivesBack end result }
    {
        let (side, s) = seat.at();
        if self.is_present(s, end.name()) {
            lose_at(self, alloc, seat, side, s, end)
        } else {
            TellResult::Back { end, made: None }
        }
    }

    /// What the worker of this seat, which has no open end, is to do: to stop, to begin a new session, or nothing.
    pub fn shut(&mut self, seat: &Seat<L>) -> IdleTask<E>
        requires seat { IsWorker (switches L.start) seat.now.worker }
        ensures named { OnShutNewEnd (λ e. E.named e % switches L.start ≡ place_of (switches L.start) seat.now.worker)
            result }
        ensures fresh { OnShutNewEnd (λ e. IfSome (E.received e) (λ xs. xs ≡ [])) result }
        ensures answer { Shuts (side_of (switches L.start) seat.now.worker)
            (place_of (switches L.start) seat.now.worker) self.old self.new result }
    {
        let (side, s) = seat.at();
        if self.stops(s) {
            return IdleTask::Stop;
        }
        match self.take_end(side, s) {
            Some(end) => IdleTask::NewEnd(end),
            None => IdleTask::Nothing,
        }
    }
}

// What the worker at this side of a switch is to do next.
fn give_at<L: RunName, E: Link>(
    run: &mut Run<L, E>,
    alloc: Global,
    seat: &mut Seat<L>,
    side: Side,
    s: usize,
) -> Result<WorkerTask<E>, AllocError>
    requires seat { WorksAt (switches L.start) seat.old.worker side s }
    ensures seat { IsUnmoved seat.old.worker seat.new.worker seat.old.share.parts seat.new.share.parts }
    ensures fits { IfOk result CanBeWritten }
    ensures named { IfOk result (OnNewEnd (λ e. E.named e % switches L.start ≡ s)) }
    ensures fresh { IfOk result (OnNewEnd (λ e. IfSome (E.received e) (λ xs. xs ≡ []))) }
    ensures answer { IfOk result (RunGives seat.old.worker side s run.old run.new) }
    ensures memory { OnErr result (RunsOut seat.old.worker side s run.old run.new) }
{
    if run.stops(s) {
        return Ok(WorkerTask::Stop);
    }
    match run.take_end(side, s) {
        Some(end) => Ok(WorkerTask::NewEnd(end)),
        None => work_at(run, alloc, seat, side, s),
    }
}
