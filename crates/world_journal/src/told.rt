//! How many messages were told in the present sessions: a run counts them with the steps that tell them.
//!
//! Layer: runs; private. Called by `steps`.
ghost use Rattle.std.specs.Prelude.{◌≡◌, ◌<◌, ◌+◌, false, None, OnOk, OnErr, Err, Some};
ghost use Rattle.world_core.specs.Steps.{IsEnabled};
ghost use Rattle.world_journal.specs.Arriving.{is_arrival};
ghost use Rattle.world_journal.specs.Calls.{Made};
ghost use Rattle.world_journal.specs.Journals.{switches, told_at, told_before};
ghost use Rattle.world_journal.specs.Makers.{MayMake, is_cut, is_rejoin};

use crate::name::RunName;
use crate::run::Run;
use crate::seat::Seat;
use outside_net::Link;
use std::alloc::Global;
use update_coordinator::Side;
use world_core::{ControllerEvent, Event, StepError, StepFault, SwitchEvent};

impl<L: RunName, E: Link> Run<L, E> {
    /// How many messages were told at this side of a switch in its present session.
    pub fn told(&self, side: Side, s: usize) -> u64
        requires { s < switches L.start }
        ensures { result ≡ told_before s side self.now.held.journal }
    {
        match side {
            Side::Controller => self.to_told[s],
            Side::Switch => self.back_told[s],
        }
    }

    // Makes a step by which no message is told.
    pub(crate) fn step_plain(
        &mut self,
        alloc: Global,
        seat: &mut Seat<L>,
        event: Event,
    ) -> Result<(), StepError>
        requires maker { MayMake (switches L.start) seat.old.worker event }
        requires plain { (is_cut event ≡ false) × (is_arrival event ≡ false) × (is_rejoin event ≡ false) }
        requires silent { told_at event ≡ None }
        ensures made { OnOk result (Made seat.old.worker event self.old self.new) }
        ensures refused { result ≡ Err (StepError.Fault StepFault.NotEnabled) → ¬ IsEnabled self.old.held.world event }
        ensures seat { (seat.new.worker ≡ seat.old.worker) × (seat.new.share.parts ≡ seat.old.share.parts) }
        ensures booked { OnOk result (seat.new.share.amount ≡ seat.old.share.amount + 1) }
        ensures err { OnErr result ((self.new ≡ self.old) × (seat.new.share.amount ≡ seat.old.share.amount)) }
    {
        self.held.step(alloc, seat, event)
    }

    // Makes a step by which a message is told at this side of a switch, and counts it.
    pub(crate) fn step_told(
        &mut self,
        alloc: Global,
        seat: &mut Seat<L>,
        event: Event,
        side: Side,
        s: usize,
    ) -> Result<(), StepError>
        requires maker { MayMake (switches L.start) seat.old.worker event }
        requires plain { (is_cut event ≡ false) × (is_arrival event ≡ false) × (is_rejoin event ≡ false) }
        requires told { told_at event ≡ Some (side, s) }
        requires place { s < switches L.start }
        ensures made { OnOk result (Made seat.old.worker event self.old self.new) }
        ensures refused { result ≡ Err (StepError.Fault StepFault.NotEnabled) → ¬ IsEnabled self.old.held.world event }
        ensures seat { (seat.new.worker ≡ seat.old.worker) × (seat.new.share.parts ≡ seat.old.share.parts) }
        ensures booked { OnOk result (seat.new.share.amount ≡ seat.old.share.amount + 1) }
        ensures err { OnErr result ((self.new ≡ self.old) × (seat.new.share.amount ≡ seat.old.share.amount)) }
    {
        let Some(count) = self.told(side, s).checked_add(1) else {
            return Err(StepError::Memory);
        };
        self.held.step(alloc, seat, event)?;
        match side {
            Side::Controller => self.to_told[s] = count,
            Side::Switch => self.back_told[s] = count,
        }
        Ok(())
    }
}

/// The side of a switch at which an event tells a message, if it does.
pub(crate) fn told_at(event: &Event) -> Option<(Side, usize)>
    ensures { result ≡ told_at event.now }
{
    match event {
        Event::Controller(ControllerEvent::Heard(s)) => Some((Side::Controller, *s)),
        Event::Switch(SwitchEvent::Take(s)) => Some((Side::Switch, *s)),
        _ => None,
    }
}
