//! Steps for which an end is kept.
//!
//! Layer: runs; public. Called by `held`.
ghost use Rattle.std.specs.Prelude.{◌≡◌, ◌+◌, ◌++◌, ◌∷◌, [], OnOk, OnErr, IfErr};

use super::BookedWorld;
use crate::entry::Entry;
use crate::name::RunName;
use crate::seat::Seat;
use outside_net::Link;
use std::alloc::Global;
use thiserror::Error;
use world_core::{Event, StepError, StepFault};

/// Why a step for which an end is kept was not made. The end comes back.
#[derive(Debug, Drop, Error)]
pub enum CutError<E: Link> {
    /// It cannot happen now.
    #[error("the event cannot happen now")]
    NotEnabled(E),
    /// Out of memory.
    #[error("out of memory")]
    Memory(E),
}

impl<L: RunName, E: Link> BookedWorld<L, E> {
    ghost use Rattle.world_core.specs.Steps.{Step, IsEnabled};
    ghost use Rattle.world_journal.specs.Makers.{MayMake};
    ghost use Rattle.world_journal.specs.Journals.{entry, MetBy, switches};
    ghost use Rattle.world_journal.specs.Cuts.{HandsBack, Refuses};

    /// Does an event for which an end is kept, a lost session or foreign bytes, and notes it.
    pub fn cut(
        &mut self,
        alloc: Global,
        seat: &mut Seat<L>,
        event: Event,
        end: E,
    ) -> Result<(), CutError<E>>
        requires maker { MayMake (switches L.start) seat.old.worker event }
        requires met { MetBy (switches L.start) E.named E.faults E.received self.old.journal event end }
        ensures world { OnOk result (Step self.old.world event self.new.world) }
        ensures refused { IfErr result (λ e. Refuses (¬ IsEnabled self.old.world event) e) }
        ensures journal { OnOk result (self.new.journal ≡ self.old.journal ++ entry seat.old.worker event ∷ []) }
        ensures ends { OnOk result (self.new.ends ≡ self.old.ends ++ end ∷ []) }
        ensures booked { OnOk result (seat.new.share.amount ≡ seat.old.share.amount + 1) }
        ensures seat { (seat.new.worker ≡ seat.old.worker) × (seat.new.share.parts ≡ seat.old.share.parts) }
        ensures err { OnErr result ((self.new ≡ self.old) × (seat.new.share.amount ≡ seat.old.share.amount)) }
        ensures back { IfErr result (λ e. HandsBack end e) }
    {
        let Ok(()) = self.journal.reserve(1) else {
            return Err(CutError::Memory(end));
        };
        let Ok(()) = self.ends.reserve(1) else {
            return Err(CutError::Memory(end));
        };
        match self.world.step(alloc, &event) {
            Ok(()) => {}
            Err(StepError::Fault(StepFault::NotEnabled)) => return Err(CutError::NotEnabled(end)),
            Err(StepError::Memory) => return Err(CutError::Memory(end)),
        }
        self.journal.push_reserved(Entry {
            worker: seat.worker,
            event,
        });
        self.ends.push_reserved(end);
        self.book.add(&mut seat.share, 1);
        Ok(())
    }
}
