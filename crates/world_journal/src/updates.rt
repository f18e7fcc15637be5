//! What the caller asks of a run.
//!
//! Layer: runs; public. Called by `asked_moves` and `moves` here, and by fleet_workers.
ghost use Rattle.std.specs.Prelude.{◌≡◌, ◌≢◌, ◌<◌, ◌+◌, ◌↔◌, ℕ, IfOk, IfSome, IfNone, IsTrue, OnErr};
ghost use Rattle.world_core.specs.declared.event.Event.{Event as EventValue};
ghost use Rattle.world_core.specs.declared.event.Event.TheVariants as event;
ghost use Rattle.world_core.specs.declared.event.ControllerEvent.TheVariants as of_controller;
ghost use Rattle.world_core.specs.declared.event.PacketEvent.TheVariants as of_packet;
ghost use Rattle.world_core.specs.Steps.{IsEnabled};
ghost use Rattle.world_journal.specs.Arriving.{IsLast};
ghost use Rattle.world_journal.specs.Calls.{IsUnmoved};
ghost use Rattle.world_journal.specs.Journals.{switches};
ghost use Rattle.world_journal.specs.Makers.{IsCaller};
ghost use Rattle.world_journal.specs.Moves.{IsAbsence, IsMissing, IsUpdate, Rejoins, Updates};
ghost use Rattle.world_journal.specs.Runs.{IsNewPair};

use crate::moves::StepOutcome;
use crate::name::RunName;
use crate::run::{Run, is_last};
use crate::seat::Seat;
use outside_net::Link;
use std::alloc::{AllocError, Global};
use world_core::{ControllerEvent, Event, PacketEvent, StepError, StepFault, World};

/// A switch that is to return, and the name of the pair over which it does.
#[derive(Clone, Copy, Debug, PartialEq, Eq)]
pub struct Absence {
    pub place: usize,
    pub name: u32,
}

/// What came of the caller's call.
#[derive(Clone, Copy, Debug, PartialEq, Eq)]
pub enum Update {
    /// A step was made.
    Step,
    /// A switch is to return: a pair is to be made for it.
    Absent(Absence),
    /// There is nothing to do now.
    Nothing,
    /// There is nothing to do any more.
    Stop,
}

impl<L: RunName, E: Link> Run<L, E> {
    /// Tells which switch is to return; or begins the next update, or reports what became of the drain: that no copy
    /// carries the old stamp any more, or that one with it can go no further. There is no more to do if the run was
    /// closed or is over. Once the last policy handles all packets and none before it drains, no switch is to
    /// return.
    pub fn update(&mut self, alloc: Global, seat: &mut Seat<L>) -> Result<Update, AllocError>
        requires { IsCaller seat.old.worker }
        ensures seat { IsUnmoved seat.old.worker seat.new.worker seat.old.share.parts seat.new.share.parts }
        ensures answer { IfOk result (Updates (switches L.start) seat.old.worker L.lines self.old self.new) }
        ensures memory { OnErr result (self.new ≡ self.old) }
    {
        if self.has_ended() {
            return Ok(Update::Stop);
        }
        if let Some(place) = self.missing() {
            return match self.next_name(place) {
                Some(name) => Ok(Update::Absent(Absence { place, name })),
                None => Err(AllocError),
            };
        }
        let Some(event) = next_update(self.world()) else {
            return Ok(Update::Nothing);
        };
        match self.step(alloc, seat, event) {
            Ok(()) => Ok(Update::Step),
            Err(StepError::Fault(StepFault::NotEnabled)) => Ok(Update::Nothing),
            Err(StepError::Memory) => Err(AllocError),
        }
    }

    /// Makes a switch return over a new pair with the name of its absence, and lays both ends out for its workers. The
    /// pair is dropped if the switch is not to return any more.
    pub fn rejoin(
        &mut self,
        alloc: Global,
        seat: &mut Seat<L>,
        absence: Absence,
        pair: (E, E),
    ) -> Result<StepOutcome, AllocError>
        requires caller { IsCaller seat.old.worker }
        requires named { (E.named pair.0 ≡ absence.name) × (E.named pair.1 ≡ absence.name) }
        requires fresh { IsNewPair E.received pair }
        ensures seat { IsUnmoved seat.old.worker seat.new.worker seat.old.share.parts seat.new.share.parts }
        ensures answer { IfOk result (Rejoins (switches L.start) seat.old.worker absence pair self.old self.new) }
        ensures memory { OnErr result (self.new ≡ self.old) }
    {
        if self.is_closed() {
            return Ok(StepOutcome::Stop);
        }
        if !self.is_absent(absence) {
            return Ok(StepOutcome::Nothing);
        }
        match self.return_over(alloc, seat, absence.place, pair) {
            Ok(()) => Ok(StepOutcome::Step),
            Err(StepError::Fault(StepFault::NotEnabled)) => Ok(StepOutcome::Nothing),
            Err(StepError::Memory) => Err(AllocError),
        }
    }

    // The first switch that is to return.
    fn missing(&self) -> Option<usize>
        ensures place { IfSome result (λ s. s < switches L.start) }
        ensures some { IfSome result (λ s. IsMissing s self.now) }
        ensures none { IfNone result ((s : ℕ) → s < switches L.start → ¬ IsMissing s self.now) }
    {
        for place in 0..self.switch_count() {
            if is_missing(self.world(), place) {
                return Some(place);
            }
        }
        None
    }

    // Whether the switch of an absence is still to return over a pair with its name.
    fn is_absent(&self, absence: Absence) -> bool
        ensures { IsTrue result ↔ IsAbsence (switches L.start) self.now absence }
    {
        if absence.place >= self.switch_count() {
            return false;
        }
        if !is_missing(self.world(), absence.place) {
            return false;
        }
        match self.next_name(absence.place) {
            Some(name) => name == absence.name,
            None => false,
        }
    }
}

// Whether a switch is to return.
fn is_missing(world: &World, place: usize) -> bool
    ensures { IsTrue result ↔
        (IsEnabled world.now (event.Controller (of_controller.Rejoin place)) × ¬ IsLast world.now) }
{
    !is_last(world) && world.enabled(&Event::Controller(ControllerEvent::Rejoin(place)))
}

// The first copy that bars the drain and can go no further.
fn first_stuck(world: &World) -> Option<usize>
    ensures some { IfSome result (λ place. IsEnabled world.now (event.Packet (of_packet.Stuck place))) }
    ensures none { IfNone result ((k : ℕ) → ¬ IsEnabled world.now (event.Packet (of_packet.Stuck k))) }
{
    for place in 0..world.flights().len() {
        if world.enabled(&Event::Packet(PacketEvent::Stuck(place))) {
            return Some(place);
        }
    }
    None
}

// What the caller may do now.
fn next_update(world: &World) -> Option<Event>
    ensures update { IfSome result (λ e. IsUpdate world.now e) }
    ensures some { IfSome result (λ e. IsEnabled world.now e) }
    ensures none { IfNone result ((e : EventValue) → IsUpdate world.now e → ¬ IsEnabled world.now e) }
{
    if world.enabled(&Event::Controller(ControllerEvent::Begin)) {
        return Some(Event::Controller(ControllerEvent::Begin));
    }
    let stamp = world.coordinator().leaving()?;
    if world.enabled(&Event::Controller(ControllerEvent::Drained(stamp))) {
        return Some(Event::Controller(ControllerEvent::Drained(stamp)));
    }
    let place = first_stuck(world)?;
    Some(Event::Packet(PacketEvent::Stuck(place)))
}
