//! A session's or a switch's worker: what it sends and tells over its end.
//!
//! Layer: runs; public. Called by drive_workers and fleet_workers.
ghost use Rattle.std.specs.Prelude.{◌≡◌, ◌<◌, ℕ, List, Option};
ghost use Rattle.openflow_wire.specs.declared.message.Message.{Message as MessageValue};
ghost use Rattle.openflow_wire.specs.Writing.{Fits, written};
ghost use Rattle.outside_io.specs.Causes.{Rose};
ghost use Rattle.worker_post.specs.Working.{IsFollowing};
ghost use Rattle.worker_post.specs.Noting.{Notes};
ghost use Rattle.worker_post.specs.Sessions.{IsNew};
ghost use Rattle.worker_post.specs.Cycles.{EndIs, GoesOnWith, OnNew, SentCycle, Works};
ghost use Rattle.worker_post.specs.Works.{IsWorkAt};

mod sessions;
mod telling;

use crate::messages::{Transfer, send_message};
use crate::passing::WorkerName;
use of_framing::Framer;
use openflow_wire::Message;
use std::alloc::Global;
use worker_desk::{Desk, Gate, TellResult, WorkerTask};

/// How a cycle of a worker ended.
#[derive(Drop)]
pub enum CycleEnd<E> {
    /// It goes on.
    Going(E),
    /// The end is not used any more; the worker waits for a new one, or to stop.
    Shut(E),
    /// A new session begins over a new end.
    New { old: E, new: E },
    /// The worker was told to stop.
    Stop(E),
    /// Memory ran out, which was told: the worker stops.
    Memory(E),
    /// The end was kept; the worker waits for a new one, or to stop.
    Kept,
}

/// What came over an end and was not told yet, after the number of messages that were.
#[derive(Drop)]
pub struct Inbox {
    pub(crate) framer: Framer,
    pub(crate) told: u64,
}

/// Where a worker stands: the desk that it asks, and the gate that it passes.
#[derive(Drop)]
pub struct Post<'a, D: Desk, G: Gate> {
    pub alloc: Global,
    pub desk: &'a D,
    pub gate: &'a G,
    pub who: WorkerName,
}

impl<'a, D: Desk, G: Gate> Post<'a, D, G> {
    // One cycle: what is given is sent, or the message is received that is on its way.
    fn cycle(&self, seat: &mut D::Seat, end: D::End, inbox: &mut Inbox) -> CycleEnd<D::End>
        requires seat { D.seated seat.old × (D.place_of (D.End.named end) ≡ D.place seat.old) }
        requires following { IsFollowing (D.End.received end) inbox.old.framer inbox.old.told }
        ensures seat { D.seated seat.new × (D.place seat.new ≡ D.place seat.old) }
        ensures named { EndIs (λ e. D.End.named e ≡ D.End.named end) (D.kept seat.new) result }
        ensures anew { OnNew (IsNew D.place_of D.End.named D.End.received (D.place seat.old)) result }
        ensures following { GoesOnWith (λ e. IsFollowing (D.End.received e) inbox.new.framer inbox.new.told) result }
        ensures worked { (g0 : Option (List MessageValue)) (t0 : Option (List (List ℕ))) (s0 r0 : Option (List ℕ))
            → IsWorkAt g0 t0 s0 r0 (D.given seat.old) (D.told seat.old) (D.End.sent end) (D.End.received end)
            inbox.old.framer inbox.old.told
            → Works D.End.sent D.End.received (D.kept seat.new) g0 t0 s0 r0 (D.given seat.new) (D.told seat.new)
            inbox.new.framer inbox.new.told result }
        ensures noted { Notes (Unit {0}) D.End.faults (D.kept seat.new) (D.End.named end) (D.End.faults end)
            (D.notices seat.old) (D.notices seat.new) result }
    {
        self.who.before_give(self.gate);
        match self.desk.give(seat) {
            Err(_) => {
                self.desk.close(seat);
                CycleEnd::Memory(end)
            }
            Ok(WorkerTask::Stop) => CycleEnd::Stop(end),
            Ok(WorkerTask::NewEnd(new)) => CycleEnd::New { old: end, new },
            Ok(WorkerTask::Nothing { made }) => {
                self.who.after(self.gate, made);
                CycleEnd::Going(end)
            }
            Ok(WorkerTask::Out { message, made }) => {
                self.who.after(self.gate, made);
                self.send_cycle(seat, end, &message)
            }
            Ok(WorkerTask::Expect { made }) => {
                self.who.after(self.gate, made);
                self.who.before_tell(self.gate);
                self.receive_cycle(seat, end, inbox)
            }
        }
    }

    // Sends what was given.
    fn send_cycle(&self, seat: &mut D::Seat, end: D::End, message: &Message) -> CycleEnd<D::End>
        requires seat { D.seated seat.old × (D.place_of (D.End.named end) ≡ D.place seat.old) }
        requires fits { Fits message.now }
        ensures seat { D.seated seat.new × (D.place seat.new ≡ D.place seat.old) }
        ensures given { (D.given seat.new ≡ D.given seat.old) × (D.told seat.new ≡ D.told seat.old) }
        ensures received { EndIs (λ e. (D.End.received e ≡ D.End.received end) × (D.End.named e ≡ D.End.named end))
            (D.kept seat.new) result }
        ensures sent { SentCycle D.End.sent (D.kept seat.new) (D.End.sent end) (written message.now) result }
        ensures anew { OnNew (IsNew D.place_of D.End.named D.End.received (D.place seat.old)) result }
        ensures noted { Notes ⊥ D.End.faults (D.kept seat.new) (D.End.named end) (D.End.faults end)
            (D.notices seat.old) (D.notices seat.new) result }
    {
        let mut end = end;
        match send_message(self.alloc, &mut end, message) {
            Transfer::Well => CycleEnd::Going(end),
            Transfer::Failed => self.lose(seat, end),
            Transfer::Closed => CycleEnd::Shut(end),
            Transfer::Memory => {
                self.desk.close(seat);
                CycleEnd::Memory(end)
            }
        }
    }

    // The end failed: the worker tells it.
    fn lose(&self, seat: &mut D::Seat, end: D::End) -> CycleEnd<D::End>
        requires seat { D.seated seat.old × (D.place_of (D.End.named end) ≡ D.place seat.old) }
        requires failed { 0 < D.End.faults end }
        ensures seat { D.seated seat.new × (D.place seat.new ≡ D.place seat.old) }
        ensures given { (D.given seat.new ≡ D.given seat.old) × (D.told seat.new ≡ D.told seat.old) }
        ensures same { EndIs (λ e. e ≡ end) (D.kept seat.new) result }
        ensures still { GoesOnWith (λ e. ⊥) result }
        ensures anew { OnNew (IsNew D.place_of D.End.named D.End.received (D.place seat.old)) result }
        ensures noted { (name before : ℕ) → D.End.named end ≡ name → Rose before (D.End.faults end)
            → Notes ⊥ D.End.faults (D.kept seat.new) name before (D.notices seat.old) (D.notices seat.new) result }
    {
        match self.desk.lost(seat, end) {
            TellResult::Back { end, made: _ } => CycleEnd::Shut(end),
            TellResult::Kept => CycleEnd::Kept,
            TellResult::Memory(end) => {
                self.desk.close(seat);
                CycleEnd::Memory(end)
            }
        }
    }
}
