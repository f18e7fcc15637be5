//! What a worker tells of the bytes that it receives.
//!
//! Layer: runs; private. Adds calls to `Post`.
ghost use Rattle.std.specs.Prelude.{◌≡◌, ◌<◌, ◌^◌, ◌-◌, ◌∷◌, [], ℕ, List, Option};
ghost use Rattle.openflow_wire.specs.declared.message.Message.{Message as MessageValue};
ghost use Rattle.openflow_wire.specs.declared.fault.WireFault.{WireFault};
ghost use Rattle.of_framing.specs.Streams.{IsFault, IsFront};
ghost use Rattle.worker_desk.specs.Answers.{grown};
ghost use Rattle.worker_post.specs.Working.{Continues, IsFollowing, TellsStream};
ghost use Rattle.worker_post.specs.Noting.{NextNotes, Notes};
ghost use Rattle.worker_post.specs.Sessions.{IsNew};
ghost use Rattle.worker_post.specs.Cycles.{EndIs, GoesOn, GoesOnWith, HasEnd, NextGoesOn, NextHasEnd, NextOnNew, OnNew};
ghost use Rattle.worker_post.specs.Cycles.{ToldCycle};

use super::{CycleEnd, Inbox, Post};
use crate::messages::{Transfer, receive};
use worker_desk::{Desk, Gate, TellResult};

/// Whether something was told.
#[derive(Drop)]
pub enum TellOutcome<E> {
    /// Nothing: less than a message is held.
    Rest(E),
    /// Something, or there is nothing to tell any more.
    Told(CycleEnd<E>),
}

impl<'a, D: Desk, G: Gate> Post<'a, D, G> {
    // Tells the next message, which it receives if it is not held.
    pub(super) fn receive_cycle(
        &self,
        seat: &mut D::Seat,
        end: D::End,
        inbox: &mut Inbox,
    ) -> CycleEnd<D::End>
        requires seat { D.seated seat.old × (D.place_of (D.End.named end) ≡ D.place seat.old) }
        requires following { IsFollowing (D.End.received end) inbox.old.framer inbox.old.told }
        ensures seat { D.seated seat.new × (D.place seat.new ≡ D.place seat.old) }
        ensures given { D.given seat.new ≡ D.given seat.old }
        ensures sent { EndIs (λ e. (D.End.sent e ≡ D.End.sent end) × (D.End.named e ≡ D.End.named end))
            (D.kept seat.new) result }
        ensures following { GoesOnWith (λ e. IsFollowing (D.End.received e) inbox.new.framer inbox.new.told) result }
        ensures told { (t0 : Option (List (List ℕ))) (r0 : Option (List ℕ)) →
            Continues t0 (D.told seat.old) r0 (D.End.received end) inbox.old.framer inbox.old.told
            → ToldCycle D.End.received (D.kept seat.new) t0 r0 (D.told seat.new) inbox.new.framer inbox.new.told
            result }
        ensures anew { OnNew (IsNew D.place_of D.End.named D.End.received (D.place seat.old)) result }
        ensures noted { Notes ⊥ D.End.faults (D.kept seat.new) (D.End.named end) (D.End.faults end)
            (D.notices seat.old) (D.notices seat.new) result }
    {
        match self.tell_next(seat, end, inbox) {
            TellOutcome::Told(after) => after,
            TellOutcome::Rest(end) => self.receive_more(seat, end, inbox),
        }
    }

    // Receives, and tells the next message if it is whole now.
    fn receive_more(&self, seat: &mut D::Seat, end: D::End, inbox: &mut Inbox) -> CycleEnd<D::End>
        requires seat { D.seated seat.old × (D.place_of (D.End.named end) ≡ D.place seat.old) }
        requires following { IsFollowing (D.End.received end) inbox.old.framer inbox.old.told }
        ensures seat { D.seated seat.new × (D.place seat.new ≡ D.place seat.old) }
        ensures given { D.given seat.new ≡ D.given seat.old }
        ensures sent { EndIs (λ e. (D.End.sent e ≡ D.End.sent end) × (D.End.named e ≡ D.End.named end))
            (D.kept seat.new) result }
        ensures following { GoesOnWith (λ e. IsFollowing (D.End.received e) inbox.new.framer inbox.new.told) result }
        ensures told { (t0 : Option (List (List ℕ))) (r0 : Option (List ℕ)) →
            Continues t0 (D.told seat.old) r0 (D.End.received end) inbox.old.framer inbox.old.told
            → ToldCycle D.End.received (D.kept seat.new) t0 r0 (D.told seat.new) inbox.new.framer inbox.new.told
            result }
        ensures anew { OnNew (IsNew D.place_of D.End.named D.End.received (D.place seat.old)) result }
        ensures noted { Notes ⊥ D.End.faults (D.kept seat.new) (D.End.named end) (D.End.faults end)
            (D.notices seat.old) (D.notices seat.new) result }
    {
        let mut end = end;
        match receive(&mut end, &mut inbox.framer) {
            Transfer::Well => match self.tell_next(seat, end, inbox) {
                TellOutcome::Told(after) => after,
                TellOutcome::Rest(end) => CycleEnd::Going(end),
            },
            Transfer::Failed => self.lose(seat, end),
            Transfer::Closed => CycleEnd::Shut(end),
            Transfer::Memory => {
                self.desk.close(seat);
                CycleEnd::Memory(end)
            }
        }
    }

    // Tells the next message that is held, or the bytes that are held at a fault. After 2^64 - 1 messages a session can
    // tell no more: it ends as if memory had run out.
    fn tell_next(&self, seat: &mut D::Seat, end: D::End, inbox: &mut Inbox) -> TellOutcome<D::End>
        requires seat { D.seated seat.old × (D.place_of (D.End.named end) ≡ D.place seat.old) }
        requires following { IsFollowing (D.End.received end) inbox.old.framer inbox.old.told }
        ensures seat { D.seated seat.new × (D.place seat.new ≡ D.place seat.old) }
        ensures given { D.given seat.new ≡ D.given seat.old }
        ensures same { NextHasEnd end (D.kept seat.new) result }
        ensures anew { NextOnNew (IsNew D.place_of D.End.named D.End.received (D.place seat.old)) result }
        ensures following { NextGoesOn result (IsFollowing (D.End.received end) inbox.new.framer inbox.new.told)
            (Unit {0}) }
        ensures told { (t0 : Option (List (List ℕ))) (r0 : Option (List ℕ)) →
            Continues t0 (D.told seat.old) r0 (D.End.received end) inbox.old.framer inbox.old.told
            → NextGoesOn result (Continues t0 (D.told seat.new) r0 (D.End.received end) inbox.new.framer
            inbox.new.told) (TellsStream t0 (D.told seat.new) r0 (D.End.received end)) }
        ensures noted { NextNotes D.End.faults (D.kept seat.new) (D.End.named end) (D.End.faults end)
            (D.notices seat.old) (D.notices seat.new) result }
        // A fault is told, whatever memory there is.
        ensures fault { (f : WireFault) → inbox.old.told < 2 ^ 64 - 1 → IsFault inbox.old.framer f →
            D.told seat.new ≡ grown (D.told seat.old) (inbox.old.framer ∷ []) }
    {
        if inbox.told == u64::MAX {
            self.desk.close(seat);
            return TellOutcome::Told(CycleEnd::Memory(end));
        }
        match inbox.framer.span() {
            None => TellOutcome::Rest(end),
            Some(Ok(len)) => TellOutcome::Told(self.tell_message(seat, end, inbox, len)),
            Some(Err(_fault)) => TellOutcome::Told(self.tell_fault(seat, end, inbox)),
        }
    }

    // Tells the message of `len` bytes that is held.
    fn tell_message(
        &self,
        seat: &mut D::Seat,
        end: D::End,
        inbox: &mut Inbox,
        len: usize,
    ) -> CycleEnd<D::End>
        requires seat { D.seated seat.old × (D.place_of (D.End.named end) ≡ D.place seat.old) }
        requires following { IsFollowing (D.End.received end) inbox.old.framer inbox.old.told }
        requires count { inbox.old.told < 2 ^ 64 - 1 }
        requires front { (m : MessageValue) × IsFront inbox.old.framer len m }
        ensures seat { D.seated seat.new × (D.place seat.new ≡ D.place seat.old) }
        ensures given { D.given seat.new ≡ D.given seat.old }
        ensures same { HasEnd end (D.kept seat.new) result }
        ensures anew { OnNew (IsNew D.place_of D.End.named D.End.received (D.place seat.old)) result }
        ensures following { GoesOn result (IsFollowing (D.End.received end) inbox.new.framer inbox.new.told)
            (Unit {0}) }
        ensures told { (t0 : Option (List (List ℕ))) (r0 : Option (List ℕ)) →
            Continues t0 (D.told seat.old) r0 (D.End.received end) inbox.old.framer inbox.old.told
            → GoesOn result (Continues t0 (D.told seat.new) r0 (D.End.received end) inbox.new.framer inbox.new.told)
            (TellsStream t0 (D.told seat.new) r0 (D.End.received end)) }
        ensures noted { Notes ⊥ D.End.faults (D.kept seat.new) (D.End.named end) (D.End.faults end)
            (D.notices seat.old) (D.notices seat.new) result }
    {
        let (message, _) = inbox.framer.held().split_at(len);
        match self.desk.tell(seat, message, end, inbox.told) {
            TellResult::Back { end, made } => {
                self.who.after(self.gate, made);
                inbox.framer.skip(len);
                inbox.told += 1;
                CycleEnd::Going(end)
            }
            TellResult::Kept => CycleEnd::Kept,
            TellResult::Memory(end) => {
                self.desk.close(seat);
                CycleEnd::Memory(end)
            }
        }
    }

    // Tells the bytes that are held at a fault.
    fn tell_fault(&self, seat: &mut D::Seat, end: D::End, inbox: &Inbox) -> CycleEnd<D::End>
        requires seat { D.seated seat.old × (D.place_of (D.End.named end) ≡ D.place seat.old) }
        requires following { IsFollowing (D.End.received end) inbox.now.framer inbox.now.told }
        requires fault { (f : WireFault) × IsFault inbox.now.framer f }
        ensures seat { D.seated seat.new × (D.place seat.new ≡ D.place seat.old) }
        ensures given { D.given seat.new ≡ D.given seat.old }
        ensures same { HasEnd end (D.kept seat.new) result }
        ensures anew { OnNew (IsNew D.place_of D.End.named D.End.received (D.place seat.old)) result }
        ensures following { GoesOn result (IsFollowing (D.End.received end) inbox.now.framer inbox.now.told)
            (Unit {0}) }
        ensures told { (t0 : Option (List (List ℕ))) (r0 : Option (List ℕ)) →
            Continues t0 (D.told seat.old) r0 (D.End.received end) inbox.now.framer inbox.now.told
            → GoesOn result (Continues t0 (D.told seat.new) r0 (D.End.received end) inbox.now.framer inbox.now.told)
            (TellsStream t0 (D.told seat.new) r0 (D.End.received end)) }
        ensures noted { Notes ⊥ D.End.faults (D.kept seat.new) (D.End.named end) (D.End.faults end)
            (D.notices seat.old) (D.notices seat.new) result }
        ensures fault { D.told seat.new ≡ grown (D.told seat.old) (inbox.now.framer ∷ []) }
    {
        match self.desk.tell(seat, inbox.framer.held(), end, inbox.told) {
            TellResult::Back { end, made: _ } => CycleEnd::Shut(end),
            TellResult::Kept => CycleEnd::Kept,
            TellResult::Memory(end) => {
                self.desk.close(seat);
                CycleEnd::Memory(end)
            }
        }
    }
}
