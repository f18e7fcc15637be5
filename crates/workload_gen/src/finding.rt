//! The event with a number, from 0, of those that can happen.
//!
//! Layer: the world; private. Called by `drawing`.
ghost use Rattle.std.specs.Prelude.{◌≡◌, ◌<◌, ◌-◌, ◌^◌, ◌∷◌, [], IfOk, length, slice_get};
ghost use Rattle.world_core.specs.declared.event.ControllerEvent.TheVariants as of_controller;
ghost use Rattle.world_core.specs.declared.event.Event.TheVariants as event;
ghost use Rattle.world_core.specs.declared.event.SwitchEvent.TheVariants as of_switch;
ghost use Rattle.world_core.specs.Settling.{hops_from};
ghost use Rattle.workload_gen.specs.Counts.{AreCounts, Finds, IsCount};
ghost use Rattle.workload_gen.specs.Draws.{arrival, due, report, tried, tried_at, tried_from, tried_last};

use crate::counting::{arrives, begins, drains, due, pending_at};
use crate::tally::Tally;
use document_text::PacketLine;
use std::alloc::{AllocError, Global};
use world_core::{ControllerEvent, Event, PacketEvent, SwitchEvent, World};

/// The event with a number, while these packets are still to come in. The tally has the counts at the switches, and
/// `hops` copies may take a hop.
pub(crate) fn event_by(
    alloc: Global,
    world: &World,
    tally: &Tally,
    packets: &[PacketLine],
    hops: u64,
    number: u64,
) -> Result<Option<Event>, AllocError>
    requires number { number < 2 ^ 64 - 1 }
    requires counts { AreCounts world.now tally.now }
    requires hops { IsCount world.now (hops_from 0 (length world.now.flights)) hops }
    ensures { IfOk result (Finds world.now (tried packets.now world.now) number) }
{
    let switches = tally.total();
    if number < switches {
        return Ok(switch_event_by(world, tally, number));
    }
    let number = number - switches;
    if number < hops {
        return Ok(hop_by(world, number));
    }
    let found = last_by(alloc, world, packets, number - hops)?;
    Ok(found)
}

// That of the events at switches.
fn switch_event_by(world: &World, tally: &Tally, number: u64) -> Option<Event>
    requires number { number < 2 ^ 64 - 1 }
    requires counts { AreCounts world.now tally.now }
    ensures { Finds world.now (tried_from world.now 0 (length world.now.topology.switches)) number result }
{
    let (start, left) = tally.skip(number);
    switch_event_from(world, tally.counts(), start, left)
}

// That of the events at the switches with these counts, from a place on.
fn switch_event_from(world: &World, counts: &[u64], start: usize, number: u64) -> Option<Event>
    requires number { number < 2 ^ 64 - 1 }
    requires counts { AreCounts world.now counts.now }
    ensures { Finds world.now (tried_from world.now start (length counts.now - start)) number result }
{
    let mut number = number;
    for place in start..counts.len() {
        let count = counts[place];
        if number < count {
            return event_at(world, place, number);
        }
        number -= count;
    }
    None
}

// That of the events at a switch.
fn event_at(world: &World, place: usize, number: u64) -> Option<Event>
    requires { number < 2 ^ 64 - 1 }
    ensures { Finds world.now (tried_at world.now place) number result }
{
    let hears = u64::from(world.may_be_heard(place));
    if number < hears {
        return Some(Event::Controller(ControllerEvent::Heard(place)));
    }
    let number = number - hears;
    let replies = u64::from(world.may_reply(place));
    if number < replies {
        return Some(Event::Switch(SwitchEvent::Reply(place)));
    }
    let number = number - replies;
    let pending = pending_at(world, place);
    if number < pending {
        return Some(Event::Switch(SwitchEvent::Apply(place, number as usize)));
    }
    channel_event_at(world, place, number - pending)
}

// That of these two: the switch takes a message, and one is sent to it.
fn channel_event_at(world: &World, place: usize, number: u64) -> Option<Event>
    requires { number < 2 ^ 64 - 1 }
    ensures { Finds world.now (event.Switch (of_switch.Take place) ∷ event.Controller (of_controller.Send place) ∷ [])
        number result }
{
    let takes = u64::from(world.may_take(place));
    if number < takes {
        return Some(Event::Switch(SwitchEvent::Take(place)));
    }
    if number - takes < u64::from(world.may_send(place)) {
        return Some(Event::Controller(ControllerEvent::Send(place)));
    }
    None
}

// That of the hops of copies in flight.
fn hop_by(world: &World, number: u64) -> Option<Event>
    requires { number < 2 ^ 64 - 1 }
    ensures { Finds world.now (hops_from 0 (length world.now.flights)) number result }
{
    let mut number = number;
    for place in 0..world.flights().len() {
        let hops = u64::from(world.may_hop(place));
        if number < hops {
            return Some(Event::Packet(PacketEvent::Hop(place)));
        }
        number -= hops;
    }
    None
}

// That of these three: the next packet comes in, an update begins, a drain is reported.
fn last_by(
    alloc: Global,
    world: &World,
    packets: &[PacketLine],
    number: u64,
) -> Result<Option<Event>, AllocError>
    requires { number < 2 ^ 64 - 1 }
    ensures { IfOk result (Finds world.now (tried_last packets.now world.now) number) }
{
    let arrives = u64::from(arrives(world, packets));
    if number < arrives {
        return arrival(alloc, packets);
    }
    let number = number - arrives;
    let begins = u64::from(begins(world));
    if number < begins {
        return Ok(Some(Event::Controller(ControllerEvent::Begin)));
    }
    if number - begins < u64::from(drains(world)) {
        return Ok(report(world));
    }
    Ok(None)
}

// The arrival of the next packet.
fn arrival(alloc: Global, packets: &[PacketLine]) -> Result<Option<Event>, AllocError>
    ensures { IfOk result (λ e. e ≡ slice_get (arrival packets.now) 0) }
{
    match packets.first() {
        Some(line) => Ok(Some(Event::arrival(alloc, line.packet, line.tag)?)),
        None => Ok(None),
    }
}

// The report that is waited for.
fn report(world: &World) -> Option<Event>
    ensures { result ≡ slice_get (report (due world.now.fleet.control)) 0 }
{
    let stamp = due(world)?;
    Some(Event::Controller(ControllerEvent::Drained(stamp)))
}
