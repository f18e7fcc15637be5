//! What a worker is given.
//!
//! Layer: runs; private. Called by `calls` and `receipts`.
ghost use Rattle.std.specs.Prelude.{◌≡◌, ◌<◌, IfOk, OnErr, Err, Some};
ghost use Rattle.openflow_wire.specs.Writing.{Fits};
ghost use Rattle.worker_desk.specs.Answers.{CanBeWritten};
ghost use Rattle.world_core.specs.Channels.{newest_at};
ghost use Rattle.world_journal.specs.Journals.{switches};
ghost use Rattle.world_journal.specs.Makers.{WorksAt};
ghost use Rattle.world_journal.specs.Runs.{waits};
ghost use Rattle.world_journal.specs.Calls.{Advances, GoesOn, IsUnmoved, RestsAs, RunsOut, Works, receipt};

use crate::name::RunName;
use crate::run::Run;
use crate::seat::Seat;
use openflow_wire::Message;
use outside_net::Link;
use std::alloc::{AllocError, Global};
use update_coordinator::Side;
use worker_desk::{MadeStep, StepKind, WorkerTask};
use world_core::{ControllerEvent, Event, StepError, StepFault, SwitchEvent, World};

// The same where the worker goes on over its end.
pub(super) fn work_at<L: RunName, E: Link>(
    run: &mut Run<L, E>,
    alloc: Global,
    seat: &mut Seat<L>,
    side: Side,
    s: usize,
) -> Result<WorkerTask<E>, AllocError>
    requires seat { WorksAt (switches L.start) seat.old.worker side s }
    ensures seat { IsUnmoved seat.old.worker seat.new.worker seat.old.share.parts seat.new.share.parts }
    ensures fits { IfOk result CanBeWritten }
    ensures answer { IfOk result (Works seat.old.worker side s run.old run.new) }
    ensures memory { OnErr result (RunsOut seat.old.worker side s run.old run.new) }
{
    if run.waits(side, s) {
        let message = newest_copy(run.world(), alloc, side, s)?;
        run.mark(side, s, false);
        return Ok(WorkerTask::Out {
            message,
            made: None,
        });
    }
    go_on(run, alloc, seat, side, s)
}

// The same where the worker goes on and no message waits.
fn go_on<L: RunName, E: Link>(
    run: &mut Run<L, E>,
    alloc: Global,
    seat: &mut Seat<L>,
    side: Side,
    s: usize,
) -> Result<WorkerTask<E>, AllocError>
    requires seat { WorksAt (switches L.start) seat.old.worker side s }
    ensures seat { IsUnmoved seat.old.worker seat.new.worker seat.old.share.parts seat.new.share.parts }
    ensures fits { IfOk result CanBeWritten }
    ensures answer { IfOk result (GoesOn seat.old.worker side s run.old run.new) }
    ensures memory { OnErr result (RunsOut seat.old.worker side s run.old run.new) }
{
    let before = run.world().sent_count(s, side);
    let made = advance(run, alloc, seat, side, s)?;
    let Some(kind) = made else {
        return Ok(rest(run.world(), side, s, None));
    };
    if before >= run.world().sent_count(s, side) {
        return Ok(rest(run.world(), side, s, made));
    }
    match newest_copy(run.world(), alloc, side, s) {
        Ok(message) => {
            run.mark(side, s, false);
            Ok(WorkerTask::Out {
                message,
                made: Some(kind),
            })
        }
        Err(_) => {
            run.mark(side, s, true);
            Err(AllocError)
        }
    }
}

// The step that this side makes by itself, if one is enabled.
fn advance<L: RunName, E: Link>(
    run: &mut Run<L, E>,
    alloc: Global,
    seat: &mut Seat<L>,
    side: Side,
    s: usize,
) -> Result<MadeStep, AllocError>
    requires seat { WorksAt (switches L.start) seat.old.worker side s }
    ensures seat { IsUnmoved seat.old.worker seat.new.worker seat.old.share.parts seat.new.share.parts }
    ensures made { IfOk result (Advances seat.old.worker side s run.old run.new) }
    ensures err { OnErr result (run.new ≡ run.old) }
{
    match side {
        Side::Controller => match run.step(
            alloc,
            seat,
            Event::Controller(ControllerEvent::Send(s)),
        ) {
            Ok(()) => Ok(Some(StepKind::Send)),
            Err(StepError::Memory) => Err(AllocError),
            Err(StepError::Fault(StepFault::NotEnabled)) => Ok(None),
        },
        Side::Switch => match run.step(alloc, seat, Event::Switch(SwitchEvent::Apply(s, 0))) {
            Ok(()) => Ok(Some(StepKind::Apply)),
            Err(StepError::Memory) => Err(AllocError),
            Err(StepError::Fault(StepFault::NotEnabled)) => match run.step(
                alloc,
                seat,
                Event::Switch(SwitchEvent::Reply(s)),
            ) {
                Ok(()) => Ok(Some(StepKind::Reply)),
                Err(StepError::Memory) => Err(AllocError),
                Err(StepError::Fault(StepFault::NotEnabled)) => Ok(None),
            },
        },
    }
}

// What is to be done where no message was put on the channel.
fn rest<E>(world: &World, side: Side, s: usize, made: MadeStep) -> WorkerTask<E>
    ensures { RestsAs world.now side s made result }
{
    if world.enabled(&receipt(side, s)) {
        WorkerTask::Expect { made }
    } else {
        WorkerTask::Nothing { made }
    }
}

// The step of a message that is received at this side.
pub(super) fn receipt(side: Side, s: usize) -> Event
    ensures { result ≡ receipt side s }
{
    match side {
        Side::Controller => Event::Controller(ControllerEvent::Heard(s)),
        Side::Switch => Event::Switch(SwitchEvent::Take(s)),
    }
}

// A copy of the message that this side put on its channel last.
fn newest_copy(world: &World, alloc: Global, side: Side, s: usize) -> Result<Message, AllocError>
    ensures { IfOk result (λ m. (newest_at world.now side s ≡ Some m) × Fits m) }
{
    match world.newest(s, side) {
        None => Err(AllocError),
        Some(message) => message.copy(alloc),
    }
}
