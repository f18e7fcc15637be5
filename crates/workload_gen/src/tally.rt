//! How many events can happen at each switch, kept from turn to turn.
//!
//! Layer: the world; private. Called by `drawing` and `finding`.
ghost use Rattle.std.specs.Prelude.{◌≡◌, ◌≢◌, ◌+◌, ◌^◌, ◌-◌, ◌<◌, ◌≤◌, ℕ, IfOk, IsTrue, None, Some, length, slice_get};
ghost use Rattle.std.specs.Prelude.{take, true};
ghost use Rattle.update_coordinator.specs.Phases.{works};
ghost use Rattle.world_core.specs.Steps.{Step};
ghost use Rattle.world_core.specs.declared.event.ControllerEvent.TheVariants as of_controller;
ghost use Rattle.world_core.specs.declared.event.Event.TheVariants as event;
ghost use Rattle.world_core.specs.Worlds.{WorldValue};
ghost use Rattle.workload_gen.specs.Counts.{AreCounts, IsCount, sum_of, sum_to_limit};
ghost use Rattle.workload_gen.specs.Draws.{tried_at};

use crate::counting::count_at;
use crate::sums::Sums;
use std::alloc::{AllocError, Global};
use std::marker::Model;
use update_coordinator::Phase;
use world_core::{ControllerEvent, Event, PacketEvent, SwitchEvent, World};

/// The counts of the events that can happen at the switches, and their sums. Each of these numbers stops at the
/// greatest one of 64 bits. Clauses see the counts.
#[derive(Drop)]
pub(crate) struct Tally {
    sums: Sums,
}

impl Model for Tally {
    ghost use Rattle.std.specs.Prelude.{ℕ, List};

    ghost Value = { List ℕ };

    ghost view = { λ t. t.sums };
}

impl Tally {
    /// The counts of all switches.
    pub(crate) fn new(alloc: Global, world: &World) -> Result<Tally, AllocError>
        ensures { IfOk result (λ t. AreCounts world.now t) }
    {
        let counts = count_all(alloc, world)?;
        let sums = Sums::new(alloc, counts)?;
        Ok(Tally { sums })
    }

    /// The counts.
    pub(crate) fn counts(&self) -> &[u64]
        ensures { result.now ≡ self.now }
    {
        self.sums.numbers()
    }

    /// Their sum.
    pub(crate) fn total(&self) -> u64
        ensures { result ≡ sum_to_limit self.now }
    {
        self.sums.total()
    }

    /// Skips the first switches, together with as many events as can happen there. Gives the place after them, and what
    /// the number of an event leaves.
    pub(crate) fn skip(&self, number: u64) -> (usize, u64)
        requires { number < 2 ^ 64 - 1 }
        ensures start { result.0 ≤ length self.now }
        ensures left { result.1 + sum_of (take result.0 self.now) ≡ number }
    {
        self.sums.skip(number)
    }

    /// Counts anew after an event that has led to this world from one in this phase.
    pub(crate) fn recount(&mut self, world: &World, event: &Event, phase: Phase)
        ensures { (w : WorldValue) → AreCounts w self.old → w.fleet.control.phase ≡ phase →
            Step w event.now world.now → AreCounts world.now self.new }
    {
        match event {
            Event::Controller(control) => self.recount_control(world, *control, phase),
            Event::Switch(act) => self.recount_switch(world, *act),
            Event::Packet(flow) => self.recount_packet(world, flow),
            Event::Foreign(_, _, _) => self.recount_all(world),
        }
    }

    // Counts anew if an event of the controller has led to this world from one in this phase.
    fn recount_control(&mut self, world: &World, control: ControllerEvent, phase: Phase)
        ensures { (w : WorldValue) → AreCounts w self.old → w.fleet.control.phase ≡ phase →
            Step w (event.Controller control) world.now → AreCounts world.now self.new }
    {
        match control {
            ControllerEvent::Send(place) => self.recount_at(world, place),
            ControllerEvent::Heard(place) => self.recount_heard(world, place, phase),
            _ => self.recount_all(world),
        }
    }

    // Counts anew if the coordinator has heard a switch in this phase: in a batch that goes on, no other switch
    // changes.
    fn recount_heard(&mut self, world: &World, place: usize, phase: Phase)
        ensures { (w : WorldValue) → AreCounts w self.old → w.fleet.control.phase ≡ phase →
            Step w (event.Controller (of_controller.Heard place)) world.now → AreCounts world.now self.new }
    {
        if goes_on(world, phase) {
            self.recount_at(world, place);
        } else {
            self.recount_all(world);
        }
    }

    // Counts anew if an event of a switch has led to this world.
    fn recount_switch(&mut self, world: &World, act: SwitchEvent)
        ensures { (w : WorldValue) → AreCounts w self.old → Step w (event.Switch act) world.now →
            AreCounts world.now self.new }
    {
        match act {
            SwitchEvent::Take(place) => self.recount_at(world, place),
            SwitchEvent::Apply(place, _) => self.recount_at(world, place),
            SwitchEvent::Reply(place) => self.recount_at(world, place),
        }
    }

    // Counts anew if an event of a packet has led to this world: no switch changes, unless updates are halted.
    fn recount_packet(&mut self, world: &World, flow: &PacketEvent)
        ensures { (w : WorldValue) → AreCounts w self.old → Step w (event.Packet flow.now) world.now →
            AreCounts world.now self.new }
    {
        match flow {
            PacketEvent::Arrive(_, _) => {}
            PacketEvent::Hop(_) => {}
            PacketEvent::Stuck(_) => self.recount_all(world),
        }
    }

    // Counts anew at one switch.
    fn recount_at(&mut self, world: &World, place: usize)
        ensures length { length self.new ≡ length self.old }
        ensures here { (n : ℕ) → slice_get self.new place ≡ Some n → IsCount world.now (tried_at world.now place) n }
        ensures others { (k : ℕ) → k ≢ place → slice_get self.new k ≡ slice_get self.old k }
    {
        if place < self.counts().len() {
            self.sums.set(place, count_at(world, place));
        }
    }

    // Counts anew at all switches.
    fn recount_all(&mut self, world: &World)
        ensures length { length self.new ≡ length self.old }
        ensures each { (place n : ℕ) → slice_get self.new place ≡ Some n →
            IsCount world.now (tried_at world.now place) n }
    {
        for place in 0..self.counts().len() {
            self.recount_at(world, place);
        }
    }
}

// Whether the updates are still in this phase, and its batch goes on.
fn goes_on(world: &World, phase: Phase) -> bool
    ensures phase { IsTrue result → world.now.fleet.control.phase ≡ phase }
    ensures works { IsTrue result → works phase ≡ true }
    ensures halt { IsTrue result → world.now.fleet.control.halt ≡ None }
{
    let coordinator = world.coordinator();
    coordinator.phase() == phase && phase.works() && coordinator.halt().is_none()
}

// The counts of all switches.
fn count_all(alloc: Global, world: &World) -> Result<Vec<u64>, AllocError>
    ensures { IfOk result (λ v. AreCounts world.now v.items) }
{
    let mut counts = Vec::new(alloc);
    for place in 0..world.topology().switches().len() {
        counts.push(count_at(world, place))?;
    }
    Ok(counts)
}
