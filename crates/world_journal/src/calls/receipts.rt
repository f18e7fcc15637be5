//! What a worker tells.
//!
//! Layer: runs; private. Called by `calls`.
ghost use Rattle.std.specs.Prelude.{◌≡◌, ◌<◌, Err, Some};
ghost use Rattle.worker_desk.specs.Answers.{GivesBack};
ghost use Rattle.worker_desk.specs.Streams.{TellsWhereKnown};
ghost use Rattle.world_journal.specs.Journals.{switches, present_name};
ghost use Rattle.world_journal.specs.Makers.{WorksAt};
ghost use Rattle.world_journal.specs.Calls.{IsUnmoved, LosesNow, TakesIn, TellsNow, TurnsAway, receipt};

use super::sends::receipt;
use crate::held::CutError;
use crate::name::RunName;
use crate::run::Run;
use crate::seat::Seat;
use openflow_wire::Octets;
use outside_net::Link;
use std::alloc::Global;
use update_coordinator::Side;
use worker_desk::{StepKind, TellResult};
use world_core::{ControllerEvent, Event, StepError, StepFault};

// What a worker received over an end: the bytes of one message, after those of k others.
#[derive(Drop)]
pub(super) struct ReceivedBytes<'a, E: Link> {
    pub(super) bytes: &'a [u8],
    pub(super) end: E,
    pub(super) k: u64,
}

// Bytes were received over an end of the present session.
pub(super) fn tell_at<L: RunName, E: Link>(
    run: &mut Run<L, E>,
    alloc: Global,
    seat: &mut Seat<L>,
    side: Side,
    s: usize,
    received: ReceivedBytes<'_, E>,
) -> TellResult<E>
    requires seat { WorksAt (switches L.start) seat.old.worker side s }
    requires name { E.named received.end ≡ present_name (switches L.start) s run.old.held.journal }
    requires stream { TellsWhereKnown (E.received received.end) received.k received.bytes.now }
    ensures seat { IsUnmoved seat.old.worker seat.new.worker seat.old.share.parts seat.new.share.parts }
    ensures answer { TellsNow seat.old.worker side s received.entry.bytes.now received.entry.k received.entry.end
        run.old run.new result }
    ensures back { GivesBack received.entry.end result }
{
    if run.world().is_front(s, side, received.bytes) {
        receive_at(run, alloc, seat, side, s, received.end)
    } else {
        refuse_at(run, alloc, seat, side, s, received)
    }
}

// The front of the channel was received.
fn receive_at<L: RunName, E: Link>(
    run: &mut Run<L, E>,
    alloc: Global,
    seat: &mut Seat<L>,
    side: Side,
    s: usize,
    end: E,
) -> TellResult<E>
    requires seat { WorksAt (switches L.start) seat.old.worker side s }
    ensures seat { IsUnmoved seat.old.worker seat.new.worker seat.old.share.parts seat.new.share.parts }
    ensures answer { TakesIn seat.old.worker side s end run.old run.new result }
    ensures back { GivesBack end result }
{
    let before = run.world().sent_count(s, side);
    let kind = match side {
        Side::Controller => StepKind::Heard,
        Side::Switch => StepKind::Take,
    };
    match run.step(alloc, seat, receipt(side, s)) {
        Ok(()) => {
            if before < run.world().sent_count(s, side) {
                run.mark(side, s, true);
            }
            TellResult::Back {
                end,
                made: Some(kind),
            }
        }
        Err(StepError::Fault(StepFault::NotEnabled)) => TellResult::Back { end, made: None },
        Err(StepError::Memory) => TellResult::Memory(end),
    }
}

// Other bytes than the front were received after k messages.
fn refuse_at<L: RunName, E: Link>(
    run: &mut Run<L, E>,
    alloc: Global,
    seat: &mut Seat<L>,
    side: Side,
    s: usize,
    received: ReceivedBytes<'_, E>,
) -> TellResult<E>
    requires seat { WorksAt (switches L.start) seat.old.worker side s }
    requires name { E.named received.end ≡ present_name (switches L.start) s run.old.held.journal }
    requires stream { TellsWhereKnown (E.received received.end) received.k received.bytes.now }
    ensures seat { IsUnmoved seat.old.worker seat.new.worker seat.old.share.parts seat.new.share.parts }
    ensures answer { TurnsAway seat.old.worker side s received.entry.bytes.now received.entry.k received.entry.end
        run.old run.new result }
    ensures back { GivesBack received.entry.end result }
{
    let ReceivedBytes { bytes, end, k } = received;
    if run.told(side, s) != k {
        return TellResult::Back { end, made: None };
    }
    let Ok(got) = Octets::from_slice(alloc, bytes) else {
        return TellResult::Memory(end);
    };
    match run.cut(alloc, seat, Event::Foreign(s, side, got), end) {
        Ok(()) => TellResult::Kept,
        Err(CutError::NotEnabled(end)) => TellResult::Back { end, made: None },
        Err(CutError::Memory(end)) => TellResult::Memory(end),
    }
}

// The end of the present session failed.
pub(super) fn lose_at<L: RunName, E: Link>(
    run: &mut Run<L, E>,
    alloc: Global,
    seat: &mut Seat<L>,
    side: Side,
    s: usize,
    end: E,
) -> TellResult<E>
    requires seat { WorksAt (switches L.start) seat.old.worker side s }
    requires name { E.named end ≡ present_name (switches L.start) s run.old.held.journal }
    requires failed { 0 < E.faults end }
    ensures seat { IsUnmoved seat.old.worker seat.new.worker seat.old.share.parts seat.new.share.parts }
    ensures answer { LosesNow seat.old.worker s end run.old run.new result }
    ensures back { GivesBack end result }
{
    match run.cut(
        alloc,
        seat,
        Event::Controller(ControllerEvent::Lost(s)),
        end,
    ) {
        Ok(()) => {
            run.drop_waiting(s);
            TellResult::Kept
        }
        Err(CutError::NotEnabled(end)) => TellResult::Back { end, made: None },
        Err(CutError::Memory(end)) => TellResult::Memory(end),
    }
}
