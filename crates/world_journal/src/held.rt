//! A world beside the journal of what happened to it.
//!
//! Layer: runs; public. Called by many modules here, and by fleet_workers.
use crate::entry::Entry;
use crate::name::RunName;
use crate::seat::{Role, Seat};
use outside_net::Link;
use std::alloc::Global;
use std::marker::Model;
use std::sync::ledger::{Blank, Book};
use world_core::{Event, StepError, StepFault, World};

mod cutting;

pub use cutting::CutError;

/// A world, the journal that led to it from the start that `L` names, and the ends that were kept for sessions that
/// were lost or met foreign bytes. As many steps are booked in the ledger as the journal has entries.
pub struct BookedWorld<L: RunName, E: Link> {
    world: World,
    journal: Vec<Entry>,
    ends: Vec<E>,
    book: Book<L>,
}

impl<L: RunName, E: Link> Drop for BookedWorld<L, E> {
    fn drop(self) {
        let BookedWorld {
            world: _world,
            journal: _journal,
            ends: _ends,
            book: _book,
        } = self;
    }
}

impl<L: RunName, E: Link> Model for BookedWorld<L, E> {
    ghost use Rattle.std.specs.Prelude.{◌≡◌, length};
    ghost use Rattle.world_journal.specs.Journals.{HeldValue, IsJournal};
    ghost use Rattle.nk_syntax.specs.contracts.pol.Pol as pols;
    ghost use Rattle.std.specs.Coded.{codes};

    ghost Value = { HeldValue E };

    // a policy holds itself, so its code is named
    ghost coded = { Prim.hlevel (codes, pols.the_row.coded) };

    ghost view = { λ h. record { world = h.world; journal = h.journal.items; ends = h.ends.items } };

    ghost invariant = { λ h. IsJournal E.named E.faults E.received L.start h.world h.journal.items h.ends.items ×
        (h.book.total ≡ length h.journal.items) };
}

impl<L: RunName, E: Link> BookedWorld<L, E> {
    ghost use Rattle.std.specs.Prelude.{◌≡◌, ◌<◌, ◌+◌, ◌++◌, ◌∷◌, [], false, OnOk, OnErr, Err, length};
    ghost use Rattle.world_core.specs.Steps.{Step, IsEnabled, Runs};
    ghost use Rattle.world_journal.specs.Makers.{MayMake, is_cut};
    ghost use Rattle.world_journal.specs.Journals.{HeldValue, IsJournal, entry, events_of, switches};

    /// A world at its start, with an empty journal, and the caller's seat, which has all parts.
    pub fn make(alloc: Global, world: World, blank: Blank) -> (BookedWorld<L, E>, Seat<L>)
        requires start { world ≡ L.start }
        requires blank { (blank.name ≡ L.name) × (blank.parts ≡ L.parts) × (0 < L.parts) }
        ensures held { result.0 ≡ record { world = world; journal = []; ends = [] } }
        ensures seat { (result.1.worker ≡ 0) × (result.1.share.parts ≡ L.parts) × (result.1.share.amount ≡ 0) }
    {
        let (book, share) = blank.open::<L>();
        let held = BookedWorld {
            world,
            journal: Vec::new(alloc),
            ends: Vec::new(alloc),
            book,
        };
        let seat = Seat {
            worker: 0,
            role: Role::Caller,
            share,
        };
        (held, seat)
    }

    /// Does an event that this worker may make, but for those for which an end is kept, and notes it.
    pub fn step(&mut self, alloc: Global, seat: &mut Seat<L>, event: Event) -> Result<(), StepError>
        requires maker { MayMake (switches L.start) seat.old.worker event }
        requires plain { is_cut event ≡ false }
        ensures world { OnOk result (Step self.old.world event self.new.world) }
        ensures refused { result ≡ Err (StepError.Fault StepFault.NotEnabled) → ¬ IsEnabled self.old.world event }
        ensures journal { OnOk result (self.new.journal ≡ self.old.journal ++ entry seat.old.worker event ∷ []) }
        ensures ends { self.new.ends ≡ self.old.ends }
        ensures booked { OnOk result (seat.new.share.amount ≡ seat.old.share.amount + 1) }
        ensures seat { (seat.new.worker ≡ seat.old.worker) × (seat.new.share.parts ≡ seat.old.share.parts) }
        ensures err { OnErr result ((self.new ≡ self.old) × (seat.new.share.amount ≡ seat.old.share.amount)) }
    {
        let Ok(()) = self.journal.reserve(1) else {
            return Err(StepError::Memory);
        };
        self.world.step(alloc, &event)?;
        self.journal.push_reserved(Entry {
            worker: seat.worker,
            event,
        });
        self.book.add(&mut seat.share, 1);
        Ok(())
    }

    /// Tells that a seat with all parts has as many steps as the journal has entries, and leaves both as they are.
    pub fn audit(&mut self, seat: &mut Seat<L>)
        requires { seat.old.share.parts ≡ L.parts }
        ensures steps { seat.new.share.amount ≡ length self.new.journal }
        ensures held { self.new ≡ self.old }
        ensures seat { (seat.new.worker ≡ seat.old.worker) × (seat.new.share.parts ≡ seat.old.share.parts) ×
            (seat.new.share.amount ≡ seat.old.share.amount) }
    {
        self.book.audit(&mut seat.share);
    }

    /// The world, the journal and the kept ends.
    pub fn parts(self) -> (World, Vec<Entry>, Vec<E>)
        ensures world { result.0 ≡ self.world }
        ensures journal { result.1.items ≡ self.journal }
        ensures ends { result.2.items ≡ self.ends }
        ensures history { IsJournal E.named E.faults E.received L.start self.world self.journal self.ends }
    {
        let BookedWorld {
            world,
            journal,
            ends,
            book: _book,
        } = self;
        (world, journal, ends)
    }

    /// The world.
    pub fn world(&self) -> &World
        ensures { result.now ≡ self.now.world }
    {
        &self.world
    }

    /// The journal, which led to the world.
    pub fn journal(&self) -> &[Entry]
        ensures journal { result.now ≡ self.now.journal }
        ensures history { Runs L.start (events_of self.now.journal) self.now.world }
    {
        &self.journal
    }

    /// How many switches there are: as many as at the start.
    pub fn switch_count(&self) -> usize
        ensures here { result ≡ switches self.now.world }
        ensures start { result ≡ switches L.start }
    {
        self.world.switch_count()
    }
}
