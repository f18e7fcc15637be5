//! The steps that workers make.
//!
//! Layer: runs; private. Adds calls to `Run`.
ghost use Rattle.std.specs.Prelude.{◌≡◌, None, slice_get, true};

use super::Run;
use super::marks::mark_at;
use crate::held::CutError;
use crate::line::Line;
use crate::name::RunName;
use crate::seat::Seat;
use crate::told::told_at;
use outside_net::Link;
use std::alloc::Global;
use world_core::{Event, StepError, StepFault};

impl<L: RunName, E: Link> Run<L, E> {
    ghost use Rattle.std.specs.Prelude.{◌<◌, ◌≤◌, ◌+◌, false, true, OnOk, OnErr, Err, IfErr, IfSome, IfNone, length};
    ghost use Rattle.std.specs.Prelude.{None, Some, slice_get};
    ghost use Rattle.world_core.specs.Steps.{IsEnabled};
    ghost use Rattle.world_core.specs.declared.event.Event.TheVariants as event;
    ghost use Rattle.world_journal.specs.Makers.{MayMake, IsTraffic, is_cut, is_rejoin};
    ghost use Rattle.world_journal.specs.Journals.{switches, MetBy};
    ghost use Rattle.world_journal.specs.Cuts.{HandsBack, Refuses};
    ghost use Rattle.world_journal.specs.Arriving.{is_arrival};
    ghost use Rattle.world_journal.specs.Calls.{Made, RunCuts, RunArrives, IsBarred};

    /// Makes a step, but for arrivals and for what begins or ends a session.
    pub fn step(&mut self, alloc: Global, seat: &mut Seat<L>, event: Event) -> Result<(), StepError>
        requires maker { MayMake (switches L.start) seat.old.worker event }
        requires plain { (is_cut event ≡ false) × (is_arrival event ≡ false) × (is_rejoin event ≡ false) }
        ensures made { OnOk result (Made seat.old.worker event self.old self.new) }
        ensures refused { result ≡ Err (StepError.Fault StepFault.NotEnabled) → ¬ IsEnabled self.old.held.world event }
        ensures seat { (seat.new.worker ≡ seat.old.worker) × (seat.new.share.parts ≡ seat.old.share.parts) }
        ensures booked { OnOk result (seat.new.share.amount ≡ seat.old.share.amount + 1) }
        ensures err { OnErr result ((self.new ≡ self.old) × (seat.new.share.amount ≡ seat.old.share.amount)) }
    {
        match told_at(&event) {
            None => self.step_plain(alloc, seat, event),
            Some((side, s)) => self.step_told(alloc, seat, event, side, s),
        }
    }

    /// Makes a step that ends a session, and keeps the end. A refusal hands it back.
    pub fn cut(
        &mut self,
        alloc: Global,
        seat: &mut Seat<L>,
        event: Event,
        end: E,
    ) -> Result<(), CutError<E>>
        requires maker { MayMake (switches L.start) seat.old.worker event }
        requires met { MetBy (switches L.start) E.named E.faults E.received self.old.held.journal event end }
        ensures made { OnOk result (RunCuts seat.old.worker event end self.old self.new) }
        ensures refused { IfErr result (λ e. Refuses (¬ IsEnabled self.old.held.world event) e) }
        ensures seat { (seat.new.worker ≡ seat.old.worker) × (seat.new.share.parts ≡ seat.old.share.parts) }
        ensures booked { OnOk result (seat.new.share.amount ≡ seat.old.share.amount + 1) }
        ensures err { OnErr result ((self.new ≡ self.old) × (seat.new.share.amount ≡ seat.old.share.amount)) }
        ensures back { IfErr result (λ e. HandsBack end e) }
    {
        self.held.cut(alloc, seat, event, end)
    }

    /// Lets the packet at a place of the lines come in, which has not.
    pub fn arrive(
        &mut self,
        alloc: Global,
        seat: &mut Seat<L>,
        place: usize,
    ) -> Result<(), StepError>
        requires maker { IsTraffic (switches L.start) seat.old.worker }
        requires first { slice_get self.old.arrived place ≡ Some false }
        ensures made { OnOk result (RunArrives seat.old.worker L.lines place self.old self.new) }
        ensures refused { result ≡ Err (StepError.Fault StepFault.NotEnabled) →
            IsBarred self.old.held.world L.lines place }
        ensures seat { (seat.new.worker ≡ seat.old.worker) × (seat.new.share.parts ≡ seat.old.share.parts) }
        ensures booked { OnOk result (seat.new.share.amount ≡ seat.old.share.amount + 1) }
        ensures err { OnErr result ((self.new ≡ self.old) × (seat.new.share.amount ≡ seat.old.share.amount)) }
    {
        let Line { packet, tag } = self.lines[place];
        let event = Event::arrival(alloc, packet, tag)?;
        self.held.step(alloc, seat, event)?;
        self.arrived[place] = true;
        self.left -= 1;
        Ok(())
    }

    /// Whether the packet at a place of the lines has come in, if there is one.
    pub fn has_arrived(&self, place: usize) -> Option<bool>
        ensures mark { result ≡ slice_get self.now.arrived place }
        ensures some { IfSome result (λ _. place < length L.lines) }
        ensures none { IfNone result (length L.lines ≤ place) }
    {
        mark_at(&self.arrived, place)
    }
}
