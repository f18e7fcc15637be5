//! A loss and a return after each event of three updates.
//!
//! Layer: tests; private. Its tests are run by `rt test`.
use crate::worlds::{End, does, does_at, end_of, run, world_of};
use std::alloc::{AllocError, Global};
use std::test::Fail;
use update_coordinator::Phase;
use world_core::{ControllerEvent, Event, SwitchEvent, World};

// What happens between a loss and the return.
#[derive(Clone, Copy, Debug, PartialEq, Eq)]
enum Interlude {
    Nothing,
    // The switch applies what is pending.
    Applies,
    // The other switch goes on as far as it can.
    GoesOn,
}

// Another one after each event.
fn between(behind: u32) -> Interlude {
    match behind % 3 {
        0 => Interlude::Nothing,
        1 => Interlude::Applies,
        _ => Interlude::GoesOn,
    }
}

// Loses the session with a switch, and lets it return. Then the updates go on to their end.
fn lose_and_return(
    alloc: Global,
    world: &mut World,
    place: usize,
    meanwhile: Interlude,
) -> Option<u32> {
    if !does_at(alloc, world, ControllerEvent::Lost(place)) {
        return None;
    }
    match meanwhile {
        Interlude::Nothing => {}
        Interlude::Applies => {
            let apply = Event::Switch(SwitchEvent::Apply(place, 0));
            for _ in 0..100 {
                let _pending = does(alloc, world, &apply);
            }
        }
        Interlude::GoesOn => {
            let _others = run(alloc, world, 10_000)?;
        }
    }
    if !does_at(alloc, world, ControllerEvent::Rejoin(place)) {
        return None;
    }
    run(alloc, world, 10_000)
}

// Where updates come to with a loss at a switch after some events.
fn end_with_loss(alloc: Global, before: u32, place: usize) -> Result<Option<End>, AllocError> {
    let mut world = world_of(alloc, 1)?;
    let ends = run(alloc, &mut world, before).is_some()
        && lose_and_return(alloc, &mut world, place, between(before)).is_some();
    Ok(end_of(world, ends))
}

// Where they come to without one, and after how many events.
fn end_without_loss(alloc: Global) -> Result<(Option<End>, u32), AllocError> {
    let mut world = world_of(alloc, 0)?;
    let count = run(alloc, &mut world, 10_000);
    Ok((end_of(world, count.is_some()), count.unwrap_or(0)))
}

#[test]
fn updates_end_wherever_a_session_was_lost(rt: HostRuntime) -> Result<(), Fail> {
    let alloc = rt.alloc();
    let (whole, count) = end_without_loss(alloc)?;
    let whole = whole.ok_or("no end")?;
    assert_eq!(rt; whole.phase, Phase::Idle(3));
    for before in 0..=count {
        let end = end_with_loss(alloc, before, (before % 2) as usize)?;
        assert_eq!(rt; end, Some(whole));
    }
    Ok(())
}

// A thousand losses and returns, with some events in front of each.
fn lose_often(alloc: Global, world: &mut World) -> bool {
    for _ in 0..1000 {
        if run(alloc, world, 7).is_none()
            || !does_at(alloc, world, ControllerEvent::Lost(0))
            || !does_at(alloc, world, ControllerEvent::Rejoin(0))
        {
            return false;
        }
    }
    run(alloc, world, 10_000).is_some()
}

// Where updates come to with a thousand losses, and whether the next one halts.
fn end_with_many(alloc: Global) -> Result<(Option<End>, bool), AllocError> {
    let mut world = world_of(alloc, 1000)?;
    let ends = lose_often(alloc, &mut world);
    let halts = does_at(alloc, &mut world, ControllerEvent::Lost(1))
        && world.coordinator().halt().is_some();
    Ok((end_of(world, ends), halts))
}

#[test]
fn the_loss_after_a_thousand_halts(rt: HostRuntime) -> Result<(), Fail> {
    let (end, halts) = end_with_many(rt.alloc())?;
    assert_eq!(rt; end.ok_or("no end")?.phase, Phase::Idle(3));
    assert!(rt; halts);
    Ok(())
}
