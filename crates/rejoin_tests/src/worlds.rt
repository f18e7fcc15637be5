//! The world of a small workload, and its updates by one event after another.
//!
//! Layer: tests; private. Called by `returns`.
ghost use Rattle.std.specs.Prelude.{◌≤◌};

use document_text::Document;
use std::alloc::{AllocError, Global};
use update_coordinator::Phase;
use workload_gen::{generate, versions};
use world_core::{ControllerEvent, Event, Settings, SwitchEvent, World};

/// Two switches and three policies. So many sessions may be lost without a halt.
pub fn world_of(alloc: Global, rejoins: usize) -> Result<World, AllocError>
    requires { rejoins ≤ 1000 }
{
    let (document, _words) = generate(alloc, 0)?;
    let versions = versions(alloc, &document)?;
    let Document { topology, .. } = document;
    let settings = Settings {
        hops: 64,
        capacity: 130_000,
        rejoins,
        overlap: None,
    };
    World::start(alloc, versions, topology, settings)
}

// The first thing that can happen at a switch.
fn next_at(world: &World, place: usize) -> Option<Event> {
    let tried = [
        Event::Controller(ControllerEvent::Heard(place)),
        Event::Switch(SwitchEvent::Reply(place)),
        Event::Switch(SwitchEvent::Apply(place, 0)),
        Event::Switch(SwitchEvent::Take(place)),
        Event::Controller(ControllerEvent::Send(place)),
    ];
    tried.into_iter().find(|event| world.enabled(event))
}

// The first thing that can happen at the switches, or of the updates.
fn next(world: &World) -> Option<Event> {
    for place in 0..world.switch_count() {
        if let Some(event) = next_at(world, place) {
            return Some(event);
        }
    }
    if world.enabled(&Event::Controller(ControllerEvent::Begin)) {
        return Some(Event::Controller(ControllerEvent::Begin));
    }
    Some(Event::Controller(ControllerEvent::Drained(world.coordinator().leaving()?)))
}

/// Does what can happen, at most a number of events. Gives how many there were.
pub fn run(alloc: Global, world: &mut World, most: u32) -> Option<u32> {
    for done in 0..most {
        let Some(event) = next(world) else {
            return Some(done);
        };
        world.step(alloc, &event).ok()?;
    }
    Some(most)
}

/// Whether an event could happen and was done.
pub fn does(alloc: Global, world: &mut World, event: &Event) -> bool {
    world.enabled(event) && world.step(alloc, event).is_ok()
}

/// Whether an event of the controller could happen and was done.
pub fn does_at(alloc: Global, world: &mut World, event: ControllerEvent) -> bool {
    does(alloc, world, &Event::Controller(event))
}

/// Where updates have come to: their phase, and how many rows the switches have, all together.
#[derive(Clone, Copy, Debug, PartialEq, Eq)]
pub struct End {
    pub phase: Phase,
    pub rows: usize,
}

/// The end of a world, if it came there.
pub fn end_of(world: World, ends: bool) -> Option<End> {
    if !ends {
        return None;
    }
    Some(End {
        phase: world.coordinator().phase(),
        rows: row_count(&world),
    })
}

// How many rows the switches have.
fn row_count(world: &World) -> usize {
    let mut all: usize = 0;
    for place in 0..world.switch_count() {
        all = all.saturating_add(world.table(place).rows().len());
    }
    all
}
