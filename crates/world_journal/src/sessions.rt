//! The sessions of a run, one after the other: each has a pair of ends of its own.
//!
//! Layer: runs; private. Adds calls to `Run`.
ghost use Rattle.std.specs.Prelude.{◌≡◌, ◌<◌, ◌+◌, ◌≤◌, ◌^◌, ◌↔◌, IsTrue, false, IfSome, IfNone, OnOk, OnErr, Err};
ghost use Rattle.update_coordinator.specs.declared.cause.Side.TheVariants as side;
ghost use Rattle.world_core.specs.Steps.{IsEnabled};
ghost use Rattle.world_core.specs.declared.event.Event.TheVariants as event;
ghost use Rattle.world_core.specs.declared.event.ControllerEvent.TheVariants as of_controller;
ghost use Rattle.world_journal.specs.Calls.{IsPresent, Returns};
ghost use Rattle.world_journal.specs.Journals.{events_of, name_of, session, switches};
ghost use Rattle.world_journal.specs.Makers.{IsCaller};
ghost use Rattle.world_journal.specs.Runs.{IsNewEnd, IsNewPair, dropping, end_at, taking};

use crate::name::RunName;
use crate::run::Run;
use crate::seat::Seat;
use outside_net::Link;
use std::alloc::Global;
use update_coordinator::Side;
use world_core::{ControllerEvent, Event, StepError, StepFault};

impl<L: RunName, E: Link> Run<L, E> {
    /// Whether an end with this name is of the present session with a switch.
    pub fn is_present(&self, s: usize, name: u32) -> bool
        requires { s < switches L.start }
        ensures { IsTrue result ↔ IsPresent (switches L.start) s name self.now }
    {
        let count = self.switch_count();
        let name = name as usize;
        name % count == s && name / count == self.sessions[s] as usize
    }

    /// The name of the pair over which a switch is to return next, if a name is left.
    pub fn next_name(&self, s: usize) -> Option<u32>
        requires { s < switches L.start }
        ensures some { IfSome result
            (λ name. name ≡ name_of (switches L.start) s (session s (events_of self.now.held.journal) + 1)) }
        ensures none { IfNone result
            (2 ^ 32 ≤ name_of (switches L.start) s (session s (events_of self.now.held.journal) + 1)) }
    {
        let number = u64::from(self.sessions[s]) + 1;
        let first = number.checked_mul(self.switch_count() as u64)?;
        u32::try_from(first.checked_add(s as u64)?).ok()
    }

    /// Takes the new end that is laid out for the worker at this side of a switch.
    pub fn take_end(&mut self, side: Side, s: usize) -> Option<E>
        requires { s < switches L.start }
        ensures end { result ≡ end_at self.old side s }
        ensures taken { IfSome result (λ e. self.new ≡ taking self.old side s) }
        ensures none { IfNone result (self.new ≡ self.old) }
        ensures fresh { IfSome result (IsNewEnd (switches L.start) E.named E.received s) }
    {
        match side {
            Side::Controller => self.take_to_end(s),
            Side::Switch => self.take_back_end(s),
        }
    }

    /// Whether one is laid out.
    pub fn has_end(&self, side: Side, s: usize) -> bool
        ensures { result ≡ false → end_at self.now side s ≡ None }
    {
        let ends = match side {
            Side::Controller => &self.to_ends,
            Side::Switch => &self.back_ends,
        };
        match ends.get(s) {
            None => false,
            Some(end) => end.is_some(),
        }
    }

    // Takes the one of the session's worker.
    fn take_to_end(&mut self, s: usize) -> Option<E>
        requires { s < switches L.start }
        ensures end { result ≡ end_at self.old side.Controller s }
        ensures taken { IfSome result (λ e. self.new ≡ taking self.old side.Controller s) }
        ensures none { IfNone result (self.new ≡ self.old) }
        ensures fresh { IfSome result (IsNewEnd (switches L.start) E.named E.received s) }
    {
        self.to_ends[s].as_ref()?;
        self.to_ends[s].take()
    }

    // Takes the one of the switch's worker.
    fn take_back_end(&mut self, s: usize) -> Option<E>
        requires { s < switches L.start }
        ensures end { result ≡ end_at self.old side.Switch s }
        ensures taken { IfSome result (λ e. self.new ≡ taking self.old side.Switch s) }
        ensures none { IfNone result (self.new ≡ self.old) }
        ensures fresh { IfSome result (IsNewEnd (switches L.start) E.named E.received s) }
    {
        self.back_ends[s].as_ref()?;
        self.back_ends[s].take()
    }

    /// Lets nothing wait for the workers of a switch any more, neither messages nor ends: its session was lost.
    pub fn drop_waiting(&mut self, s: usize)
        requires { s < switches L.start }
        ensures { self.new ≡ dropping self.old s }
    {
        self.to_waits[s] = false;
        self.back_waits[s] = false;
        self.to_ends[s] = None;
        self.back_ends[s] = None;
    }

    /// Makes a switch return over a new pair, and lays both of its ends out for the switch's workers.
    pub fn return_over(
        &mut self,
        alloc: Global,
        seat: &mut Seat<L>,
        s: usize,
        pair: (E, E),
    ) -> Result<(), StepError>
        requires maker { IsCaller seat.old.worker }
        requires place { s < switches L.start }
        requires named { (E.named pair.0 ≡ name_of (switches L.start) s
            (session s (events_of self.old.held.journal) + 1)) × (E.named pair.1 ≡ E.named pair.0) }
        requires fresh { IsNewPair E.received pair }
        ensures made { OnOk result (Returns seat.old.worker s pair self.old self.new) }
        ensures refused { result ≡ Err (StepError.Fault StepFault.NotEnabled) →
            ¬ IsEnabled self.old.held.world (event.Controller (of_controller.Rejoin s)) }
        ensures seat { (seat.new.worker ≡ seat.old.worker) × (seat.new.share.parts ≡ seat.old.share.parts) }
        ensures err { OnErr result (self.new ≡ self.old) }
    {
        let Some(number) = self.sessions[s].checked_add(1) else {
            return Err(StepError::Memory);
        };
        self.held
            .step(alloc, seat, Event::Controller(ControllerEvent::Rejoin(s)))?;
        self.sessions[s] = number;
        self.to_told[s] = 0;
        self.back_told[s] = 0;
        self.to_waits[s] = false;
        self.back_waits[s] = true;
        let (here, there) = pair;
        self.to_ends[s] = Some(here);
        self.back_ends[s] = Some(there);
        Ok(())
    }
}
