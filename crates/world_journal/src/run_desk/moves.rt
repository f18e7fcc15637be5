//! What the caller and the workers that bring packets in ask of a run.
//!
//! Layer: runs; private. Adds calls to `RunDesk`.
ghost use Rattle.std.specs.Prelude.{◌≡◌, ◌<◌};
ghost use Rattle.world_journal.specs.Calls.{IsUnmoved};
ghost use Rattle.world_journal.specs.Journals.{switches};
ghost use Rattle.world_journal.specs.Makers.{IsCaller, IsTraffic};
ghost use Rattle.world_journal.specs.Runs.{IsNewPair};

use super::RunDesk;
use crate::asked_moves::{come_in_of, hop_on_of, rejoin_of, update_of};
use crate::moves::StepOutcome;
use crate::name::RunName;
use crate::poster::Poster;
use crate::seat::Seat;
use crate::updates::{Absence, Update};
use outside_net::Link;
use std::alloc::AllocError;
use std::sync::Wait;

impl<R: Wait + Drop, L: RunName, P: Poster, E: Link> RunDesk<R, L, P, E> {
    /// Begins the next update, reports what became of the drain, or tells which switch is to return.
    pub fn update(&self, seat: &mut Seat<L>) -> Result<Update, AllocError>
        requires { IsCaller seat.old.worker }
        ensures { IsUnmoved seat.old.worker seat.new.worker seat.old.share.parts seat.new.share.parts }
    {
        self.silence(seat);
        let update = update_of(&mut *self.lock(), self.alloc, seat);
        match update {
            Ok(Update::Nothing) => self.wait(seat),
            Ok(Update::Step) => self.wake_sessions(),
            _ => self.wake_all(),
        }
        update
    }

    /// Makes a switch return over a new pair.
    pub fn rejoin(
        &self,
        seat: &mut Seat<L>,
        absence: Absence,
        pair: (E, E),
    ) -> Result<StepOutcome, AllocError>
        requires caller { IsCaller seat.old.worker }
        requires named { (E.named pair.0 ≡ absence.name) × (E.named pair.1 ≡ absence.name) }
        requires fresh { IsNewPair E.received pair }
        ensures { IsUnmoved seat.old.worker seat.new.worker seat.old.share.parts seat.new.share.parts }
    {
        let did = rejoin_of(&mut *self.lock(), self.alloc, seat, absence, pair);
        self.wake_all();
        did
    }

    /// Lets the packet at a place of the lines come in.
    pub fn come_in(&self, seat: &mut Seat<L>, place: usize) -> Result<StepOutcome, AllocError>
        requires { IsTraffic (switches L.start) seat.old.worker }
        ensures { IsUnmoved seat.old.worker seat.new.worker seat.old.share.parts seat.new.share.parts }
    {
        let did = come_in_of(&mut *self.lock(), self.alloc, seat, place);
        self.ring_at(0);
        did
    }

    /// Lets the first copy that may take another hop take it.
    pub fn hop_on(&self, seat: &mut Seat<L>) -> Result<StepOutcome, AllocError>
        requires { IsTraffic (switches L.start) seat.old.worker }
        ensures { IsUnmoved seat.old.worker seat.new.worker seat.old.share.parts seat.new.share.parts }
    {
        let did = hop_on_of(&mut *self.lock(), self.alloc, seat);
        self.ring_at(0);
        did
    }
}
