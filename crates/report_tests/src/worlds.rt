//! The reports of worlds: one that bytes came to from outside, and one whose switch returned.
//!
//! Layer: tests; private. Its tests are run by `rt test`.
ghost use Rattle.std.specs.Prelude.{◌≤◌};

use crate::rules::topology;
use openflow_wire::Octets;
use report_text::world_report;
use std::alloc::{AllocError, Global};
use std::process::Abort;
use std::test::Fail;
use topology_model::{TopoError, Topology};
use update_coordinator::Side;
use world_core::{ControllerEvent, Event, Events, Settings, World};

// The switch's HELLO was due.
const REPORT: &str =
    "e foreign 1 controller\nphase opening\nhalted switch 1 foreign controller 0100000800000000 012f\n";

// The switch is lost in the middle of its handshake, returns, and gets the batch that empties its table.
const RETURNED: &str =
    "e heard 1\ne send 1\ne lost 1\ne rejoin 1\ne heard 1\ne send 1\ne take 1\ne send 1\ne take 1\ne heard 1\ne send 1\ne take 1\ne apply 1 0\ne send 1\ne take 1\ne reply 1\ne heard 1\nphase idle 0\n";

// A world without policies.
fn empty(alloc: Global, topology: Topology, rejoins: usize) -> Result<World, AllocError>
    requires { rejoins ≤ 1000 }
{
    let settings = Settings {
        hops: 1,
        capacity: 1,
        rejoins,
        overlap: None,
    };
    World::start(alloc, Vec::new(alloc), topology, settings)
}

// Does an event that can happen, and notes it.
fn step(alloc: Global, world: &mut World, events: &mut Events, event: Event) -> bool {
    world.enabled(&event) && world.step(alloc, &event).is_ok() && events.push(event).is_ok()
}

// The same for an event of the controller.
fn does(alloc: Global, world: &mut World, events: &mut Events, event: ControllerEvent) -> bool {
    step(alloc, world, events, Event::Controller(event))
}

// Whether an event of the controller can happen.
fn may(world: &World, event: ControllerEvent) -> bool {
    world.enabled(&Event::Controller(event))
}

// Whether that is the report.
fn tells(alloc: Global, world: &World, events: &Events, text: &str) -> bool {
    world_report(alloc, world, events).is_ok_and(|told| told.as_str() == text)
}

// Whether the first of these events cannot happen any more.
fn is_over(world: &World, events: &Events) -> bool {
    match events.iter().next() {
        Some(first) => !world.enabled(first.event()),
        None => false,
    }
}

// Bytes come from outside, once.
fn foreign(alloc: Global, world: &mut World, events: &mut Events) -> bool {
    let Ok(came) = Octets::from_slice(alloc, &[0x01, 0x2f]) else {
        return false;
    };
    step(
        alloc,
        world,
        events,
        Event::Foreign(0, Side::Controller, came),
    ) && is_over(world, events)
        && tells(alloc, world, events, REPORT)
}

// The switch is lost in its handshake and returns, and then lost once more.
fn returns(alloc: Global, world: &mut World, events: &mut Events) -> bool {
    does(alloc, world, events, ControllerEvent::Heard(0))
        && does(alloc, world, events, ControllerEvent::Send(0))
        && !may(world, ControllerEvent::Rejoin(0))
        && does(alloc, world, events, ControllerEvent::Lost(0))
        && !may(world, ControllerEvent::Lost(0))
        && !may(world, ControllerEvent::Send(0))
        && does(alloc, world, events, ControllerEvent::Rejoin(0))
        && world.settle(alloc, events).is_ok()
        && tells(alloc, world, events, RETURNED)
        && does(alloc, world, events, ControllerEvent::Lost(0))
        && world.coordinator().halt().is_some()
}

// What happens.
#[derive(Clone, Copy)]
enum Course {
    Foreign,
    Returns,
}

// Whether all goes as it must in a world of one switch, of which this number of sessions may be lost.
fn goes(rt: &impl Abort, alloc: Global, rejoins: usize, course: Course) -> Result<bool, TopoError>
    requires { rejoins ≤ 1000 }
{
    let one = topology(rt, alloc, 1)?;
    let mut world = empty(alloc, one, rejoins)?;
    let mut events = Events::new(alloc);
    Ok(match course {
        Course::Foreign => foreign(alloc, &mut world, &mut events),
        Course::Returns => returns(alloc, &mut world, &mut events),
    })
}

#[test]
fn foreign_bytes(rt: HostRuntime) -> Result<(), Fail> {
    assert!(rt; goes(&rt, rt.alloc(), 0, Course::Foreign)?);
    Ok(())
}

#[test]
fn a_lost_switch_returns(rt: HostRuntime) -> Result<(), Fail> {
    assert!(rt; goes(&rt, rt.alloc(), 1, Course::Returns)?);
    Ok(())
}
